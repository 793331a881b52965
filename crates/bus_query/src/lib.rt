// What can be asked of an endpoint (reference: `is_endpoint_stalled` of device.rs, `wait_enabled` of endpoint.rs).
#![tactic(auto)]

ghost use Rattle.std.specs.Prelude.{◌≡◌, [], Ok, Err};
ghost use Rattle.state.specs.Refusals.{first_refusal};
ghost use Rattle.state_slots.specs.Waking.{no_wakes};
ghost use Rattle.state_call.specs.Turn.{turn_at};
ghost use Rattle.state_call.specs.Outcome.{or_else};
ghost use Rattle.bus_query.specs.Query.{stalledb, enabledb, stalled_call, enabled_call, query_numbers, query_says};

use state::{EndpointAddress, Events, State};
use state_call::{Entry, Said};
use state_slots::slot_place;

#[tactic(auto, unfolding(state_call::specs::Outcome::or_else))]
fn answer(entry: Entry, says: bool) -> Said<bool>
    ensures answer { result.answer ≡ or_else (first_refusal (turn_at entry [])) Err (Ok says) }
    ensures wakes { result.wakes ≡ no_wakes }
{
    Said::quiet(entry.admit().and(Ok(says)))
}

pub fn is_stalled(state: State, events: Events, endpoint: EndpointAddress) -> Said<bool>
    ensures answer { result.answer ≡ (stalled_call state events endpoint.index endpoint.incoming).answer }
    ensures wakes { result.wakes ≡ (stalled_call state events endpoint.index endpoint.incoming).wakes }
    ensures numbers { query_numbers result.answer ≡ query_says state events (stalledb state endpoint.index endpoint.incoming) }
{
    let slot = state.endpoints[slot_place(endpoint)];
    let entry = Entry::new(&state, events);
    answer(entry, (endpoint.index < 8) & slot.stalled)
}

pub fn is_enabled(state: State, events: Events, endpoint: EndpointAddress) -> Said<bool>
    ensures answer { result.answer ≡ (enabled_call state events endpoint.index endpoint.incoming).answer }
    ensures wakes { result.wakes ≡ (enabled_call state events endpoint.index endpoint.incoming).wakes }
    ensures numbers { query_numbers result.answer ≡ query_says state events (enabledb state endpoint.index endpoint.incoming) }
{
    let slot = state.endpoints[slot_place(endpoint)];
    let entry = Entry::new(&state, events);
    answer(entry, (endpoint.index < 8) & (state.powered & slot.enabled))
}
