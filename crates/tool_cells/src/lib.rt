// A number behind its tab, on standard output.
#![tactic(auto)]

ghost use Rattle.std.specs.Prelude.{◌≡◌, ◌++◌, decimal};
ghost use Rattle.tool_print.specs.Text.{tab};

use tool_print::Line;

pub fn number(rt: &impl Print, n: u32) {
    cell(n).print(rt);
}

fn cell(n: u32) -> Line<11>
    ensures { result ≡ tab ++ decimal n }
{
    let mut line = Line::new();
    line.cell(n);
    line
}
