// The line that says which bytes a call copied.
#![tactic(auto)]

ghost use Rattle.std.specs.Prelude.{◌≡◌};
ghost use Rattle.tool_copies.specs.Copies.{copied_text};

use tool_print::Line;

// The first `count` of these bytes were copied, or all if they are fewer; where there are none, nothing is told.
pub fn copied(rt: &impl Print, from: u32, to: u32, bytes: &[u8], count: u32) {
    if let Some(line) = copied_line(from, to, bytes, count) {
        line.print(rt);
    }
}

fn copied_line(from: u32, to: u32, bytes: &[u8], count: u32) -> Option<Line<50>>
    ensures { result ≡ copied_text from to bytes.now count }
{
    let most = bytes.len().min(count as usize);
    if most == 0 {
        return None;
    }
    let sum = tool_patterns::sum(&bytes[..most]);
    Some(Line::row(b"copy", &[from, to, most as u32, sum]))
}
