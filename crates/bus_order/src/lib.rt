// Orders on endpoints (reference: `Bus` of device.rs).
#![tactic(auto)]

ghost use Rattle.std.specs.Prelude.{◌≡◌, length};
ghost use Rattle.ops.specs.Wrote.{Wrote};
ghost use Rattle.state.specs.Numbers.{check_number};
ghost use Rattle.state.specs.Refusals.{first_refusal};
ghost use Rattle.bus_order.specs.Order.{order_conditions, order_call};
ghost use Rattle.bus_endpoint.specs.declared.Order.TheVariants.{Stall, Enable};

use bus_endpoint::{Order, obey};
use state::{EndpointAddress, Events, State};
use state_call::{Entry, Listed};
use state_slots::slot_place;

// Inlined, since a call with the state costs two copies of it.
#[inline(always)]
fn order(
    ops: &mut [u32],
    mut state: State,
    events: Events,
    endpoint: EndpointAddress,
    order: Order,
) -> Listed<()>
    ensures answer { result.answer ≡ (order_call (length ops.old) state events endpoint.index endpoint.incoming order).answer }
    ensures state { result.state ≡ (order_call (length ops.old) state events endpoint.index endpoint.incoming order).state }
    ensures list { Wrote ops.old 0 (order_call (length ops.old) state events endpoint.index endpoint.incoming order).ops result.end ops.new }
    ensures wakes { result.wakes ≡ (order_call (length ops.old) state events endpoint.index endpoint.incoming order).wakes }
    ensures number { check_number result.answer ≡ check_number (first_refusal (order_conditions (length ops.old) state events)) }
{
    let entry = Entry::new(&state, events);
    let i = slot_place(endpoint);
    let obeyed = obey(
        ops,
        entry,
        state.powered,
        endpoint,
        order,
        state.endpoints[i],
    );
    state.endpoints[i] = obeyed.slot;
    Listed {
        state,
        answer: obeyed.answer,
        end: obeyed.end,
        wakes: obeyed.wakes,
    }
}

// Has an enabled endpoint answer STALL, or no longer. What is in hand there is cut.
pub fn endpoint_set_stalled(
    ops: &mut [u32],
    state: State,
    events: Events,
    endpoint: EndpointAddress,
    stalled: bool,
) -> Listed<()>
    ensures answer { result.answer ≡ (order_call (length ops.old) state events endpoint.index endpoint.incoming (Stall stalled)).answer }
    ensures state { result.state ≡ (order_call (length ops.old) state events endpoint.index endpoint.incoming (Stall stalled)).state }
    ensures list { Wrote ops.old 0 (order_call (length ops.old) state events endpoint.index endpoint.incoming (Stall stalled)).ops result.end ops.new }
    ensures wakes { result.wakes ≡ (order_call (length ops.old) state events endpoint.index endpoint.incoming (Stall stalled)).wakes }
    ensures number { check_number result.answer ≡ check_number (first_refusal (order_conditions (length ops.old) state events)) }
{
    order(ops, state, events, endpoint, Order::Stall(stalled))
}

// Switches an endpoint on or off. What is in hand there is cut.
pub fn endpoint_set_enabled(
    ops: &mut [u32],
    state: State,
    events: Events,
    endpoint: EndpointAddress,
    enabled: bool,
) -> Listed<()>
    ensures answer { result.answer ≡ (order_call (length ops.old) state events endpoint.index endpoint.incoming (Enable enabled)).answer }
    ensures state { result.state ≡ (order_call (length ops.old) state events endpoint.index endpoint.incoming (Enable enabled)).state }
    ensures list { Wrote ops.old 0 (order_call (length ops.old) state events endpoint.index endpoint.incoming (Enable enabled)).ops result.end ops.new }
    ensures wakes { result.wakes ≡ (order_call (length ops.old) state events endpoint.index endpoint.incoming (Enable enabled)).wakes }
    ensures number { check_number result.answer ≡ check_number (first_refusal (order_conditions (length ops.old) state events)) }
{
    order(ops, state, events, endpoint, Order::Enable(enabled))
}
