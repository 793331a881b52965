// The numbers of a piece that are lent with or printed.
ghost use Rattle.std.specs.Prelude.{◌≡◌, min as least};
ghost use Rattle.state_slots.specs.Slots.{own_buffer};
ghost use Rattle.tool_moves.specs.Pieces.{begunb, movedb, handed_over, brought_out, given_at, place_of};

use super::asked::Asked;
use endpoint_answer::Move;
use endpoint_choice::is_own_transfer;
use state::{Refusal, Slot};
use state_slots::own_buffer;

// How many bytes of an array of 16384 are lent as the own buffer. None is longer: 16 packets of 1024.
pub fn own_size(slot: Slot) -> usize
    ensures { result ≡ least (own_buffer slot).size 16384 }
{
    own_buffer(slot).size.min(16384) as usize
}

// Where the caller's bytes stand.
pub fn place(asked: Asked) -> u32
    ensures { result ≡ place_of asked }
{
    asked.address.wrapping_add(asked.position)
}

pub fn is_begun(answer: Result<Move, Refusal>) -> bool
    ensures { result ≡ begunb answer }
{
    matches!(answer, Ok(Move::Begun(_)))
}

// Whether a piece was taken.
fn is_moved(answer: Result<Move, Refusal>) -> bool
    ensures { result ≡ movedb answer }
{
    matches!(answer, Ok(Move::More(_) | Move::Ended(_)))
}

// How many bytes a piece that was begun took into the own buffer.
pub fn handed_over(answer: Result<Move, Refusal>, slot: Slot) -> u32
    ensures { result ≡ handed_over answer slot }
{
    let begun = is_begun(answer);
    let own = is_own_transfer(slot);
    if begun & own { slot.transfer.length } else { 0 }
}

// How many bytes a piece that was taken brought by way of the own buffer; the slot is as it stood before.
pub fn brought(answer: Result<Move, Refusal>, slot: Slot) -> u32
    ensures { result ≡ brought_out answer slot }
{
    let moved = is_moved(answer);
    let own = is_own_transfer(slot);
    if moved & own {
        slot.transfer.progress
    } else {
        0
    }
}

// What a call that ended gives. No more bytes are lent than that.
pub fn given(incoming: bool, total: usize) -> u32
    ensures { result ≡ given_at incoming total }
{
    if incoming {
        return 0;
    }
    total.min(65536) as u32
}
