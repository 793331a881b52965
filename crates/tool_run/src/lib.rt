// A script from an input: line after line, over one world and one list.
#![tactic(auto)]

use std::io::Read;
use tool_input::{Input, TooLong};

pub fn script(rt: &impl Print, source: &mut impl Read) {
    let mut list = [0u32; 640];
    let mut world = world::fresh();
    let mut input = Input::new();
    for _ in 0..u64::MAX {
        match input.next_line(source) {
            Some(Ok(line)) => world = tool_calls::call(rt, &mut list, world, line),
            Some(Err(TooLong)) => tool_answers::unfit(rt),
            None => return,
        }
    }
}
