// What is printed behind a call of the driver, and the world that the call leaves.
#![tactic(auto)]

ghost use Rattle.std.specs.Prelude.{◌≡◌};

use state::Refusal;
use state_call::{Answered, Listed};
use world::World;

// A call that was lent a list: its records, and what is said of its answer.
pub fn listed<A: Copy>(
    rt: &impl Print,
    list: &[u32; 640],
    world: World,
    called: Listed<A>,
    said: Result<u32, Refusal>,
) -> World
    ensures { result ≡ record world { state = called.state } }
{
    tool_print::operations(rt, list, called.end);
    tool_answers::answer(rt, said, called.wakes);
    world.with_state(called.state)
}

// The same of a call that gives no number: 0 is told for what it did.
pub fn numberless<A: Copy>(
    rt: &impl Print,
    list: &[u32; 640],
    world: World,
    done: Listed<A>,
) -> World
    ensures { result ≡ record world { state = done.state } }
{
    listed(rt, list, world, done, done.answer.map(|_| 0))
}

// A take. One that has to wait says no number.
pub fn taken(rt: &impl Print, world: World, take: Answered<Option<u32>>) -> World
    ensures { result ≡ record world { state = take.state } }
{
    match take.answer.transpose() {
        Some(said) => tool_answers::answer(rt, said, take.wakes),
        None => tool_answers::busy(rt),
    }
    world.with_state(take.state)
}
