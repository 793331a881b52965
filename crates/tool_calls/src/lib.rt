// One line of a script: its call is made, and its records and answer are printed.
#![tactic(auto)]

use tool_calls_control::{generation, setup, take_in, take_out};
use tool_calls_stage::{accept, accept_address, data_in, data_out, reject};
use tool_words::Word;
use world::World;

// Each group of words has a crate of its own.
pub fn call(rt: &impl Print, list: &mut [u32; 640], world: World, line: &[u8]) -> World {
    let word = tool_scripts::read_call(line);
    match word {
        Word::Unfit => {
            tool_answers::unfit(rt);
            world
        }
        Word::Driver => tool_calls_driver::driver(rt, world, line),
        Word::Allocate => tool_calls_driver::allocate(rt, world, line),
        Word::Start => tool_calls_start::start(rt, world, line),
        Word::On => tool_calls_power::on(rt, list, world, line),
        Word::Off => tool_calls_power::off(rt, list, world),
        Word::Wakeup => tool_calls_power::wakeup(rt, list, world),
        Word::Raise => tool_calls_bus::raise(rt, world, line),
        Word::Poll => tool_calls_bus::poll(rt, world),
        Word::Reset => tool_calls_bus::reset(rt, list, world),
        Word::Enable => tool_calls_orders::enable(rt, list, world, line),
        Word::Stall => tool_calls_orders::stall(rt, list, world, line),
        Word::Stalled => tool_calls_queries::stalled(rt, world, line),
        Word::Enabled => tool_calls_queries::enabled(rt, world, line),
        Word::Begin => tool_calls_begin::begin(rt, list, world, line),
        Word::Take => tool_calls_finish::take(rt, world, line),
        Word::Abandon => tool_calls_finish::abandon(rt, list, world, line),
        Word::Report => tool_calls_report::report(rt, list, world, line),
        Word::Move => tool_calls_moves::begin(rt, list, world, line),
        Word::Next => tool_calls_moves::next(rt, list, world, line),
        Word::DataOut => data_out(rt, list, world, line),
        Word::DataIn => data_in(rt, list, world, line),
        Word::Accept => accept(rt, list, world, line),
        Word::AcceptAddress => accept_address(rt, list, world, line),
        Word::Reject => reject(rt, list, world, line),
        Word::Setup => setup(rt, world),
        Word::TakeOut => take_out(rt, world, line),
        Word::TakeIn => take_in(rt, world, line),
        Word::Generation => generation(rt, world, line),
        Word::Show => {
            tool_show::state(rt, world.state, world.events);
            world
        }
        Word::Interrupt => tool_calls_interrupt::begin(rt, list, world),
        _ => tool_calls_interrupt::answer(rt, list, world, tool_readings::reading(word, line)),
    }
}
