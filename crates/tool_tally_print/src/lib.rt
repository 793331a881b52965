// A line for each configured slot: its tally.
#![tactic(auto)]

ghost use Rattle.std.specs.Prelude.{◌≡◌};
ghost use Rattle.tool_tally_print.specs.Lines.{header_text, tally_text};

use state::{State, Tally};
use tool_print::Line;

pub fn tallies(rt: &impl Print, state: State) {
    let _ = rt.write_all(header_line());
    for (i, slot) in state.endpoints.iter().enumerate() {
        if slot.config.is_some() {
            line(i as u32, slot.tally).print(rt);
        }
    }
}

fn header_line() -> &'static [u8]
    ensures { result.now ≡ header_text }
{
    b"slot\tbegun\tfinished\tcut\tbytes\n"
}

fn line(i: u32, tally: Tally) -> Line<60>
    ensures { result ≡ tally_text i tally }
{
    let mut line = Line::new();
    line.number(i);
    line.cells(&[tally.begun, tally.finished, tally.cut, tally.bytes]);
    line.end();
    line
}
