// Prints the register operations of transfers: one is asked for by each line of standard input.
//
// The fields of a line are direction, endpoint, M, own buffer, address, length and flag.
#![tactic(auto)]

use tool_input::{Input, TooLong};

fn main(rt: HostRuntime) {
    tool_print::header(&rt);
    let mut list = [0u32; 640];
    let mut source = rt.reader();
    let mut input = Input::new();
    for _ in 0..u64::MAX {
        match input.next_line(&mut source) {
            Some(Ok(line)) => tool_listing::line(&rt, &mut list, line),
            // A line that is too long can't be read.
            Some(Err(TooLong)) => tool_listing_answers::refused(&rt, None),
            None => return,
        }
    }
}
