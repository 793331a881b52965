// A piece of a receive taken (reference: the loop of `receive` in endpoint.rs).
#![tactic(auto)]

ghost use Rattle.std.specs.Prelude.{◌≡◌, ◌-◌, min as least, length};
ghost use Rattle.endpoint_parts.specs.Parts.{part, put};
ghost use Rattle.endpoint_choice.specs.Choice.{asked_of, place, own_transfer};
ghost use Rattle.endpoint_answer.specs.Answers.{move_numbers};
ghost use Rattle.endpoint_received.specs.Received.{receive_most, received_next, received_says, brought_by, received_call, received_numbers};

use endpoint_answer::Move;
use endpoint_choice::{Asked, MoveRequest, is_own_transfer, is_unfit, place, place_after, rest};
use endpoint_parts::copy_part;
use state::{EndpointAddress, Events, Refusal, Slot, State};
use state_call::Answered;
use state_slots::slot_place;
use transfer_take::take;

// How many bytes there is room for.
fn most(slot: Slot, asked: Asked, size: usize) -> u32
    ensures { result ≡ receive_most slot asked size }
{
    let left = rest(asked);
    let room = if is_own_transfer(slot) {
        left.min(size)
    } else {
        left
    };
    room.min(u32::MAX as usize) as u32
}

// What is next after n bytes more.
fn next(slot: Slot, asked: Asked, n: u32) -> Move
    ensures { result ≡ received_next slot asked n }
{
    let after = place_after(asked, n);
    if asked.single || n < slot.transfer.length || after == asked.length {
        return Move::Ended(after);
    }
    Move::More(after)
}

fn received_answer(
    slot: Slot,
    asked: Asked,
    taken: Result<Option<u32>, Refusal>,
) -> Result<Move, Refusal>
    ensures { result ≡ received_says slot asked taken }
{
    match taken? {
        Some(n) => Ok(next(slot, asked, n)),
        None => Ok(Move::Busy),
    }
}

// How many bytes came by way of the own buffer.
fn brought(own: bool, taken: Result<Option<u32>, Refusal>) -> u32
    ensures { result ≡ brought_by own taken }
{
    match taken {
        Ok(Some(n)) if own => n,
        _ => 0,
    }
}

// Those are stored in the caller's bytes, from where it stands.
fn store(
    slot: Slot,
    asked: Asked,
    taken: Result<Option<u32>, Refusal>,
    own: &[u8],
    bytes: &mut [u8],
)
    ensures { bytes.new ≡ put bytes.old (place asked) (part own.now 0 (least (brought_by (own_transfer slot) taken) (length bytes.old - place asked))) }
{
    let count = brought(is_own_transfer(slot), taken);
    copy_part(own, 0, count as usize, bytes, place(asked));
}

// Says that a piece of a receive is under way, or takes it, stores what came by way of the own buffer in the caller's
// bytes, and says what is next. Both are lent as at its begin; where the caller's lie isn't asked. Where more came than
// there is room for, the transfer is closed with 9 and nothing is stored.
pub fn received(
    state: State,
    events: Events,
    index: u8,
    request: MoveRequest,
    bytes: &mut [u8],
    own: &[u8],
) -> Answered<Move>
    ensures answer { result.answer ≡ (received_call state events index (asked_of request (length bytes.old)) own.now request.own_address).answer }
    ensures state { result.state ≡ (received_call state events index (asked_of request (length bytes.old)) own.now request.own_address).state }
    ensures wakes { result.wakes ≡ (received_call state events index (asked_of request (length bytes.old)) own.now request.own_address).wakes }
    ensures numbers { move_numbers result.answer ≡ received_numbers state events index (asked_of request (length bytes.old)) request.own_address (length own.now) }
    ensures lent { bytes.new ≡ put bytes.old (place (asked_of request (length bytes.old))) (received_call state events index (asked_of request (length bytes.old)) own.now request.own_address).copied }
{
    let asked = request.of_length(bytes.len());
    let endpoint = EndpointAddress {
        index,
        incoming: false,
    };
    let slot = state.endpoints[slot_place(endpoint)];
    let unfit = is_unfit(slot, request.own_address, own.len());
    let room = most(slot, asked, own.len());
    let taken = take(state, events, endpoint, unfit, room);
    store(slot, asked, taken.answer, own, bytes);
    Answered {
        state: taken.state,
        answer: received_answer(slot, asked, taken.answer),
        wakes: taken.wakes,
    }
}
