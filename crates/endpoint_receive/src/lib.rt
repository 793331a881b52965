// A piece of a receive begun (reference: `read`, `read_transfer` and `receive` of endpoint.rs).
#![tactic(auto)]

ghost use Rattle.std.specs.Prelude.{◌≡◌, length};
ghost use Rattle.ops.specs.Wrote.{Wrote};
ghost use Rattle.endpoint_choice.specs.Choice.{asked_of};
ghost use Rattle.endpoint_answer.specs.Answers.{move_numbers};
ghost use Rattle.endpoint_receive.specs.Receive.{receive_call, receive_says};

use endpoint_answer::Move;
use endpoint_choice::MoveRequest;
use endpoint_plan::{begun_piece, receive_plan};
use state::{EndpointAddress, Events, State};
use state_call::Listed;
use state_slots::slot_place;
use transfer_begin::begin;

// Begins the next piece of a receive: `read` where a single packet is asked for, else `read_transfer`. The caller's bytes
// and the own buffer are lent; neither is looked into.
pub fn receive(
    ops: &mut [u32],
    state: State,
    events: Events,
    index: u8,
    request: MoveRequest,
    bytes: &[u8],
    own: &[u8],
) -> Listed<Move>
    ensures answer { result.answer ≡ (receive_call (length ops.old) state events index (asked_of request (length bytes.now)) request.own_address (length own.now)).answer }
    ensures state { result.state ≡ (receive_call (length ops.old) state events index (asked_of request (length bytes.now)) request.own_address (length own.now)).state }
    ensures list { Wrote ops.old 0 (receive_call (length ops.old) state events index (asked_of request (length bytes.now)) request.own_address (length own.now)).ops result.end ops.new }
    ensures wakes { result.wakes ≡ (receive_call (length ops.old) state events index (asked_of request (length bytes.now)) request.own_address (length own.now)).wakes }
    ensures numbers { move_numbers result.answer ≡ receive_says (length ops.old) state events index (asked_of request (length bytes.now)) request.own_address (length own.now) }
{
    let asked = request.of_length(bytes.len());
    let endpoint = EndpointAddress {
        index,
        incoming: false,
    };
    let slot = state.endpoints[slot_place(endpoint)];
    let plan = receive_plan(slot, asked, request.own_address, own.len());
    let begun = begin(ops, state, events, endpoint, plan.piece, plan.faults);
    Listed {
        state: begun.state,
        answer: begun_piece(begun.answer, plan, bytes, own),
        end: begun.end,
        wakes: begun.wakes,
    }
}
