// What the listing says of a line besides its records.
#![tactic(auto)]

ghost use Rattle.std.specs.Prelude.{◌≡◌};
ghost use Rattle.tool_listing_answers.specs.Said.{refused_text, done_text};

use state::Refusal;
use tool_print::Line;

// A call is refused, or, by 0, a line that can't be read.
pub fn refused(rt: &impl Print, refusal: Option<Refusal>) {
    refused_line(refusal).print(rt);
}

fn refused_line(refusal: Option<Refusal>) -> Line<20>
    ensures { result ≡ refused_text refusal }
{
    Line::row(b"refused", &[refusal.map_or(0, u32::from)])
}

pub fn done(rt: &impl Print, index: u32, progress: u32) {
    done_line(index, progress).print(rt);
}

fn done_line(index: u32, progress: u32) -> Line<40>
    ensures { result ≡ done_text index progress }
{
    let mut line = Line::new();
    line.text(b"0\tdone");
    line.cell(index);
    line.text(b"\tprogress");
    line.cell(progress);
    line.end();
    line
}
