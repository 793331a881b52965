// An interrupt of a script, by its readings.
#![tactic(auto)]

ghost use Rattle.std.specs.Prelude.{◌≡◌};
ghost use Rattle.std.proofs.lemmas.List.Edits.{sets};
ghost use Rattle.ops.specs.Ops.{flat};
ghost use Rattle.interrupt_begin.specs.Begin.{interrupt_call};
ghost use Rattle.tool_calls_interrupt.specs.Heard.{left_by, world_heard, list_heard};

use interrupt_asks::InterruptResult;
use state::Reading;
use world::World;

#[tactic(auto, unfolding(usbss::specs::Step::step))]
pub fn begin(rt: &impl Print, list: &mut [u32; 640], world: World) -> World
    ensures world { result ≡ left_by world (interrupt_call 640 world.state world.events) }
    ensures list { list.new ≡ sets list.old 0 (flat (interrupt_call 640 world.state world.events).ops) }
{
    let result = usbss::interrupt(list, world.state, world.events);
    told(rt, list, world, result)
}

// A line that is no reading's, or whose numbers can't be read, is unfit.
#[tactic(auto, unfolding(usbss::specs::Step::step))]
pub fn answer(
    rt: &impl Print,
    list: &mut [u32; 640],
    world: World,
    reading: Option<Reading>,
) -> World
    ensures world { result ≡ world_heard world reading }
    ensures list { list.new ≡ list_heard world reading list.old }
{
    let Some(reading) = reading else {
        tool_answers::unfit(rt);
        return world;
    };
    let result = usbss::answer(list, world.state, world.events, reading);
    told(rt, list, world, result)
}

fn told(rt: &impl Print, list: &[u32; 640], world: World, called: InterruptResult) -> World
    ensures { result ≡ record world { state = called.state; events = called.events } }
{
    tool_print::operations(rt, list, called.end);
    match called.answer {
        Ok(None) => tool_answers::answer(rt, Ok(0), called.wakes),
        Ok(next) => tool_awaits::awaits(rt, next),
        Err(refusal) => tool_answers::refused(rt, refusal),
    }
    world.with_state(called.state).with_events(called.events)
}
