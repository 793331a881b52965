// A transfer on the data endpoints 1 to 7, abandoned (reference: `run` of endpoint.rs).
#![tactic(auto)]

ghost use Rattle.std.specs.Prelude.{◌≡◌, length as list_length};
ghost use Rattle.ops.specs.Wrote.{Wrote};
ghost use Rattle.state.specs.Refusals.{first_refusal};
ghost use Rattle.state_call.specs.Turn.{admitted_at};
ghost use Rattle.transfer_abandon.specs.Abandon.{abandon_own, settle_time, abandon_call, abandon_numbers, abandon_says};

use ops::OpList;
use regs_endpoint::abort_busy;
use state::refusals::refuse_if;
use state::{EndpointAddress, Events, Refusal, State};
use state_call::{ListEntry, Listed};
use state_slots::waking::no_wakes;
use state_slots::{forget, is_busy, is_data_endpoint, slot_place};

fn abandon_check(lent: ListEntry, index: u8) -> Result<(), Refusal>
    ensures { result ≡ first_refusal (admitted_at lent (abandon_own index)) }
{
    lent.admit()?;
    refuse_if(!is_data_endpoint(index), Refusal::NoDataEndpoint)
}

// How long an endpoint is to be left alone: a host may still read what was cut short.
fn settle_time(incoming: bool, busy: bool) -> u32
    ensures { result ≡ settle_time incoming busy }
{
    if incoming & busy { 100 } else { 0 }
}

// Gives a transfer up: a chain in hand is aborted, and the slot is idle. The answer has the microseconds that the endpoint
// is to be left alone.
#[tactic(auto, unfolding(crate::specs::Abandon::abandon_call, state_call::specs::Outcome::or_else))]
pub fn abandon(
    ops: &mut [u32],
    mut state: State,
    events: Events,
    endpoint: EndpointAddress,
) -> Listed<u32>
    ensures answer { result.answer ≡ (abandon_call (list_length ops.old) state events endpoint.index endpoint.incoming).answer }
    ensures state { result.state ≡ (abandon_call (list_length ops.old) state events endpoint.index endpoint.incoming).state }
    ensures list { Wrote ops.old 0 (abandon_call (list_length ops.old) state events endpoint.index endpoint.incoming).ops result.end ops.new }
    ensures wakes { result.wakes ≡ (abandon_call (list_length ops.old) state events endpoint.index endpoint.incoming).wakes }
    ensures numbers { abandon_numbers result.answer ≡ abandon_says (list_length ops.old) state events endpoint.index endpoint.incoming }
{
    let lent = ListEntry::new(ops.len(), &state, events);
    let check = abandon_check(lent, endpoint.index);
    if let Err(refusal) = check {
        return Listed::quiet(state, Err(refusal));
    }
    let i = slot_place(endpoint);
    let slot = state.endpoints[i];
    let busy = is_busy(slot.phase);
    let mut list = OpList::new(ops);
    abort_busy(&mut list, endpoint.index as u32, endpoint.incoming, busy);
    state.endpoints[i] = forget(slot, true, slot.enabled, slot.stalled);
    Listed {
        state,
        answer: Ok(settle_time(endpoint.incoming, busy)),
        end: list.end,
        wakes: no_wakes(),
    }
}
