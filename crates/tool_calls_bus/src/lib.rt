// Events, and a bus reset by itself.
#![tactic(auto)]

ghost use Rattle.std.specs.Prelude.{◌≡◌, cond};
ghost use Rattle.std.proofs.lemmas.List.Edits.{sets};
ghost use Rattle.ops.specs.Ops.{flat};
ghost use Rattle.regs_device.specs.Device.{bus_reset_ops};
ghost use Rattle.tool_arguments.specs.Arguments.{byte_at};
ghost use Rattle.bus_events.specs.Poll.{poll_call};
ghost use Rattle.bus_events.specs.Raise.{raise_call};
ghost use Rattle.bus_reset.specs.Reset.{bus_reset_state};

use ops::OpList;
use state_events::Event;
use tool_arguments::byte;
use world::World;

#[tactic(auto, unfolding(usbss::specs::Step::step))]
pub fn raise(rt: &impl Print, mut world: World, line: &[u8]) -> World
    ensures { result ≡ record world { events = (raise_call world.state world.events (byte_at line.now 0)).events } }
{
    let raised = usbss::raise(world.state, &mut world.events, byte(line, 0));
    tool_answers::answer(rt, raised.answer.map(|()| 0), raised.wakes);
    world
}

#[tactic(auto, unfolding(usbss::specs::Step::step))]
pub fn poll(rt: &impl Print, mut world: World) -> World
    ensures { result ≡ record world { events = (poll_call world.state world.events).events } }
{
    let polled = usbss::poll(world.state, &mut world.events);
    tool_answers::answer(rt, polled.answer.map(event_number), polled.wakes);
    world
}

// An event's bit, or 0.
fn event_number(event: Option<Event>) -> u32 {
    event.map_or(0, |event| u8::from(event) as u32)
}

// Without power there is no reset.
pub fn reset(rt: &impl Print, list: &mut [u32; 640], world: World) -> World
    ensures world { result ≡ cond world.state.powered (record world { state = bus_reset_state world.state }) world }
    ensures list { list.new ≡ cond world.state.powered (sets list.old 0 (flat (bus_reset_ops world.state.ep0_address))) list.old }
{
    if !world.state.powered {
        tool_answers::unfit(rt);
        return world;
    }
    let mut ops = OpList::new(list);
    let state = bus_reset::bus_reset(&mut ops, world.state);
    let end = ops.end;
    tool_print::operations(rt, list, end);
    tool_answers::done(rt, 0);
    world.with_state(state)
}
