// What can be asked of an endpoint. Nothing changes by it.
#![tactic(auto)]

ghost use Rattle.std.specs.Prelude.{◌≡◌};

use tool_arguments::endpoint;
use world::World;

pub fn stalled(rt: &impl Print, world: World, line: &[u8]) -> World
    ensures { result ≡ world }
{
    let said = usbss::is_stalled(world.state, world.events, endpoint(line));
    tool_answers::answer(rt, said.answer.map(u32::from), said.wakes);
    world
}

pub fn enabled(rt: &impl Print, world: World, line: &[u8]) -> World
    ensures { result ≡ world }
{
    let said = usbss::is_enabled(world.state, world.events, endpoint(line));
    tool_answers::answer(rt, said.answer.map(u32::from), said.wakes);
    world
}
