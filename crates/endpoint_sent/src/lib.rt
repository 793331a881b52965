// A piece of a send taken (reference: the loop of `send` in endpoint.rs).
#![tactic(auto)]

ghost use Rattle.std.specs.Prelude.{◌≡◌, length};
ghost use Rattle.endpoint_choice.specs.Choice.{asked_of};
ghost use Rattle.endpoint_answer.specs.Answers.{move_numbers};
ghost use Rattle.endpoint_sent.specs.Sent.{sent_next, sent_says, sent_call, sent_numbers};

use endpoint_answer::Move;
use endpoint_choice::{Asked, MoveRequest, closes, is_own_transfer, is_unfit, place_after};
use state::{EndpointAddress, Events, Refusal, Slot, State};
use state_call::Answered;
use state_slots::slot_place;
use transfer_take::take;

// What is next after n bytes more.
fn next(slot: Slot, asked: Asked, n: u32) -> Move
    ensures { result ≡ sent_next slot asked n }
{
    let after = place_after(asked, n);
    if after < asked.length {
        return Move::More(after);
    }
    if 0 < n && is_own_transfer(slot) && closes(slot, asked) {
        return Move::More(asked.length);
    }
    Move::Ended(asked.length)
}

fn sent_answer(
    slot: Slot,
    asked: Asked,
    taken: Result<Option<u32>, Refusal>,
) -> Result<Move, Refusal>
    ensures { result ≡ sent_says slot asked taken }
{
    match taken? {
        Some(n) => Ok(next(slot, asked, n)),
        None => Ok(Move::Busy),
    }
}

// Says that a piece of a send is under way, or takes it and says what is next. The caller's bytes and the own buffer are
// lent as at its begin; where the caller's lie isn't asked.
pub fn sent(
    state: State,
    events: Events,
    index: u8,
    request: MoveRequest,
    bytes: &[u8],
    own: &[u8],
) -> Answered<Move>
    ensures answer { result.answer ≡ (sent_call state events index (asked_of request (length bytes.now)) request.own_address (length own.now)).answer }
    ensures state { result.state ≡ (sent_call state events index (asked_of request (length bytes.now)) request.own_address (length own.now)).state }
    ensures wakes { result.wakes ≡ (sent_call state events index (asked_of request (length bytes.now)) request.own_address (length own.now)).wakes }
    ensures numbers { move_numbers result.answer ≡ sent_numbers state events index (asked_of request (length bytes.now)) request.own_address (length own.now) }
{
    let asked = request.of_length(bytes.len());
    let endpoint = EndpointAddress {
        index,
        incoming: true,
    };
    let slot = state.endpoints[slot_place(endpoint)];
    let unfit = is_unfit(slot, request.own_address, own.len());
    let taken = take(state, events, endpoint, unfit, u32::MAX);
    Answered {
        state: taken.state,
        answer: sent_answer(slot, asked, taken.answer),
        wakes: taken.wakes,
    }
}
