// The driver's start.
#![tactic(auto)]

ghost use Rattle.std.specs.Prelude.{◌≡◌, cond, ltb};
ghost use Rattle.tool_scripts.specs.Script.{number_at};
ghost use Rattle.tool_calls_start.specs.Started.{world_started};

use tool_scripts::number;
use world::World;

#[tactic(auto, unfolding(usbss::specs::Step::step))]
pub fn start(rt: &impl Print, world: World, line: &[u8]) -> World
    ensures { result ≡ cond (ltb (number_at line.now 0) 65536) (world_started world (number_at line.now 0)) world }
{
    let Ok(size) = u16::try_from(number(line, 0)) else {
        tool_answers::unfit(rt);
        return world;
    };
    let started = usbss::start(world.state, world.events, world.driver, size);
    tool_answers::answer(rt, started.answer.map(|()| 0), started.wakes);
    world.with_state(started.state).with_events(started.events)
}
