// A send that has nothing left: it begins no transfer, but for its refusals it is a begin (reference: `send` of
// endpoint.rs, which doesn't look at the endpoint then).
#![tactic(auto)]

ghost use Rattle.std.specs.Prelude.{◌≡◌, true};
ghost use Rattle.state.specs.Refusals.{first_refusal};
ghost use Rattle.state_slots.specs.Waking.{no_wakes};
ghost use Rattle.state_call.specs.Outcome.{or_else};
ghost use Rattle.transfer_begin.specs.Begin.{begin_conditions};
ghost use Rattle.endpoint_answer.specs.declared.Move.TheVariants.{Ended};

use endpoint_answer::Move;
use endpoint_plan::Plan;
use state::{EndpointAddress, Events, State};
use state_call::Listed;
use transfer_begin::begin_check;

// Nothing is left to send: only the refusals of a begin are asked.
#[tactic(auto, unfolding(state_call::specs::Outcome::or_else))]
pub fn nothing(
    room: usize,
    state: State,
    events: Events,
    index: u8,
    plan: Plan,
    total: usize,
) -> Listed<Move>
    ensures answer { result.answer ≡ or_else (first_refusal (begin_conditions room state events index true plan.piece plan.faults.long plan.faults.unfit)) Err (Ok (Ended total)) }
    ensures state { result.state ≡ state }
    ensures end { result.end ≡ 0 }
    ensures wakes { result.wakes ≡ no_wakes }
{
    let endpoint = EndpointAddress {
        index,
        incoming: true,
    };
    let check = begin_check(room, &state, events, endpoint, plan.piece, plan.faults);
    Listed::quiet(state, check.and(Ok(Move::Ended(total))))
}
