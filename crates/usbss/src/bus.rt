// Power, orders and queries of an endpoint, the pending events, and the host woken.
ghost use Rattle.std.specs.Prelude.{◌≡◌, length};
ghost use Rattle.bus_endpoint.specs.declared.Order.TheVariants.{Stall, Enable};
ghost use Rattle.usbss.specs.Call.{PowerOn, PowerOff, Ordered, IsStalled, IsEnabled, Raise, Poll, Wakeup};
ghost use Rattle.usbss.specs.Says.{Says, Writes};
ghost use Rattle.usbss.specs.Step.{world, step};

use state::{EndpointAddress, Events, State};
use state_call::{Listed, Said};
use state_events::Event;

// Brings the link up; `revision` is the chip's. A device that is on stays as it is.
#[inline(always)]
#[tactic(auto, unfolding(crate::specs::Step::step))]
pub fn power_on(ops: &mut [u32], state: State, events: Events, revision: u32) -> Listed<()>
    ensures { Writes (step (world state events) (PowerOn (length ops.old) revision)) ops.old result ops.new }
{
    bus_power_on::power_on(ops, state, events, revision)
}

// Takes the link down; every transfer is cut.
#[inline(always)]
#[tactic(auto, unfolding(crate::specs::Step::step))]
pub fn power_off(ops: &mut [u32], state: State, events: Events) -> Listed<()>
    ensures { Writes (step (world state events) (PowerOff (length ops.old))) ops.old result ops.new }
{
    bus_power_off::power_off(ops, state, events)
}

// Sets or clears a stall; the transfer in hand there is cut.
#[inline(always)]
#[tactic(auto, unfolding(crate::specs::Step::step))]
pub fn endpoint_set_stalled(
    ops: &mut [u32],
    state: State,
    events: Events,
    endpoint: EndpointAddress,
    stalled: bool,
) -> Listed<()>
    ensures { Writes (step (world state events) (Ordered (length ops.old) endpoint (Stall stalled))) ops.old result ops.new }
{
    bus_order::endpoint_set_stalled(ops, state, events, endpoint, stalled)
}

// Enables or disables an endpoint; the transfer in hand there is cut.
#[inline(always)]
#[tactic(auto, unfolding(crate::specs::Step::step))]
pub fn endpoint_set_enabled(
    ops: &mut [u32],
    state: State,
    events: Events,
    endpoint: EndpointAddress,
    enabled: bool,
) -> Listed<()>
    ensures { Writes (step (world state events) (Ordered (length ops.old) endpoint (Enable enabled))) ops.old result ops.new }
{
    bus_order::endpoint_set_enabled(ops, state, events, endpoint, enabled)
}

// Whether an endpoint answers STALL.
#[inline(always)]
#[tactic(auto, unfolding(crate::specs::Step::step))]
pub fn is_stalled(state: State, events: Events, endpoint: EndpointAddress) -> Said<bool>
    ensures { Says (step (world state events) (IsStalled endpoint)) result }
{
    bus_query::is_stalled(state, events, endpoint)
}

// Whether an endpoint is enabled and the device on.
#[inline(always)]
#[tactic(auto, unfolding(crate::specs::Step::step))]
pub fn is_enabled(state: State, events: Events, endpoint: EndpointAddress) -> Said<bool>
    ensures { Says (step (world state events) (IsEnabled endpoint)) result }
{
    bus_query::is_enabled(state, events, endpoint)
}

// Adds an event to those that are pending.
#[inline(always)]
#[tactic(auto, unfolding(crate::specs::Step::step))]
pub fn raise(state: State, events: &mut Events, event: u8) -> Said<()>
    ensures call { Says (step (world state events.old) (Raise event)) result }
    ensures events { events.new ≡ (step (world state events.old) (Raise event)).events }
{
    bus_events::raise(state, events, event)
}

// The next pending event, taken off.
#[inline(always)]
#[tactic(auto, unfolding(crate::specs::Step::step))]
pub fn poll(state: State, events: &mut Events) -> Said<Option<Event>>
    ensures call { Says (step (world state events.old) Poll) result }
    ensures events { events.new ≡ (step (world state events.old) Poll).events }
{
    bus_events::poll(state, events)
}

// Wakes a host that has suspended the device.
#[inline(always)]
#[tactic(auto, unfolding(crate::specs::Step::step))]
pub fn wakeup(ops: &mut [u32], state: State, events: Events) -> Listed<()>
    ensures { Writes (step (world state events) (Wakeup (length ops.old))) ops.old result ops.new }
{
    bus_wakeup::wakeup(ops, state, events)
}
