// A piece of a send begun (reference: `write`, `write_transfer` and `send` of endpoint.rs).
#![tactic(auto)]

ghost use Rattle.std.specs.Prelude.{◌≡◌, length};
ghost use Rattle.ops.specs.Wrote.{Wrote};
ghost use Rattle.state_call.specs.Outcome.{front};
ghost use Rattle.endpoint_choice.specs.Choice.{asked_of};
ghost use Rattle.endpoint_answer.specs.Answers.{move_numbers};
ghost use Rattle.endpoint_send.specs.Send.{send_call, send_says};

use endpoint_answer::Move;
use endpoint_choice::MoveRequest;
use endpoint_nothing::nothing;
use endpoint_plan::{begun_piece, hand_over, send_plan};
use state::{EndpointAddress, Events, State};
use state_call::Listed;
use state_slots::slot_place;
use transfer_begin::begin;

// Begins the next piece of a send: `write` where a single packet is asked for, else `write_transfer`. The caller's bytes
// and the own buffer are lent.
pub fn send(
    ops: &mut [u32],
    state: State,
    events: Events,
    index: u8,
    request: MoveRequest,
    bytes: &[u8],
    own: &mut [u8],
) -> Listed<Move>
    ensures answer { result.answer ≡ (send_call (length ops.old) state events index (asked_of request (length bytes.now)) bytes.now request.own_address (length own.old)).answer }
    ensures state { result.state ≡ (send_call (length ops.old) state events index (asked_of request (length bytes.now)) bytes.now request.own_address (length own.old)).state }
    ensures list { Wrote ops.old 0 (send_call (length ops.old) state events index (asked_of request (length bytes.now)) bytes.now request.own_address (length own.old)).ops result.end ops.new }
    ensures wakes { result.wakes ≡ (send_call (length ops.old) state events index (asked_of request (length bytes.now)) bytes.now request.own_address (length own.old)).wakes }
    ensures numbers { move_numbers result.answer ≡ send_says (length ops.old) state events index (asked_of request (length bytes.now)) request.own_address (length own.old) }
    ensures lent { own.new ≡ front (send_call (length ops.old) state events index (asked_of request (length bytes.now)) bytes.now request.own_address (length own.old)).copied own.old }
{
    let asked = request.of_length(bytes.len());
    let endpoint = EndpointAddress {
        index,
        incoming: true,
    };
    let slot = state.endpoints[slot_place(endpoint)];
    let plan = send_plan(slot, asked, request.own_address, own.len());
    if !plan.begins {
        return nothing(ops.len(), state, events, index, plan, bytes.len());
    }
    let begun = begin(ops, state, events, endpoint, plan.piece, plan.faults);
    hand_over(begun.answer, plan, bytes, own);
    Listed {
        state: begun.state,
        answer: begun_piece(begun.answer, plan, bytes, own),
        end: begun.end,
        wakes: begun.wakes,
    }
}
