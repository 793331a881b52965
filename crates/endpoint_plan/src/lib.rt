// What a begin of a send or receive needs to know, and what is done with the bytes around it.
#![tactic(auto)]

ghost use Rattle.std.specs.Prelude.{◌≡◌, cond, ◌&&◌, not, [], min as least, length};
ghost use Rattle.std.specs.Result.{is_ok};
ghost use Rattle.state_call.specs.Outcome.{front};
ghost use Rattle.endpoint_parts.specs.Parts.{part, piece_of};
ghost use Rattle.endpoint_answer.specs.Answers.{begun_answer};
ghost use Rattle.endpoint_plan.specs.Plan.{send_plan, receive_plan};

use endpoint_answer::{Move, begun_answer};
use endpoint_choice::{
    Asked, is_longer, is_unfit, place, receive_choice, send_begins, send_choice,
};
use endpoint_parts::{copy_part, piece};
use state::{Refusal, Slot};
use transfer_piece::{Faults, Piece};

// The next piece; whether it is a part of the caller's bytes, and from where; what stands against it; and whether there
// is one to be begun.
#[derive(Clone, Copy)]
pub struct Plan {
    pub piece: Piece,
    pub direct: bool,
    pub at: usize,
    pub faults: Faults,
    pub begins: bool,
}

// Of a send, where the own buffer was lent as `size` bytes at `address`.
pub fn send_plan(slot: Slot, asked: Asked, address: u32, size: usize) -> Plan
    ensures { result ≡ send_plan slot asked address size }
{
    let chosen = send_choice(slot, asked);
    Plan {
        piece: chosen.piece,
        direct: chosen.direct,
        at: place(asked),
        faults: Faults {
            long: is_longer(slot, asked),
            unfit: is_unfit(slot, address, size),
        },
        begins: send_begins(slot, asked),
    }
}

// Of a receive. There is always room to receive into.
pub fn receive_plan(slot: Slot, asked: Asked, address: u32, size: usize) -> Plan
    ensures { result ≡ receive_plan slot asked address size }
{
    let chosen = receive_choice(slot, asked);
    Plan {
        piece: chosen.piece,
        direct: chosen.direct,
        at: place(asked),
        faults: Faults {
            long: false,
            unfit: is_unfit(slot, address, size),
        },
        begins: true,
    }
}

// The caller's bytes are copied to the start of the own buffer where a piece was begun that doesn't use them in place.
pub fn hand_over(begun: Result<(), Refusal>, plan: Plan, bytes: &[u8], own: &mut [u8])
    ensures { own.new ≡ front (cond (is_ok begun && not plan.direct) (part bytes.now plan.at (least plan.piece.length (length own.old))) []) own.old }
{
    if begun.is_ok() && !plan.direct {
        copy_part(bytes, plan.at, plan.piece.length as usize, own, 0);
    }
}

// The answer to a begin, with how many bytes its piece has.
pub fn begun_piece(
    begun: Result<(), Refusal>,
    plan: Plan,
    bytes: &[u8],
    own: &[u8],
) -> Result<Move, Refusal>
    ensures { result ≡ begun_answer (length (piece_of plan.direct bytes.now own.now plan.at plan.piece.length)) begun }
{
    let used = piece(bytes, own, plan.direct, plan.at, plan.piece.length as usize);
    begun_answer(begun, used.len())
}
