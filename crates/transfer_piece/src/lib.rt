// What a slot is to move, tested and taken on (reference: `run` of endpoint.rs).
#![tactic(auto)]

ghost use Rattle.std.specs.Prelude.{◌≡◌};
ghost use Rattle.state.specs.Refusals.{first_refusal};
ghost use Rattle.transfer_piece.specs.Piece.{piece_fits, begin_own, begun_slot};

use state::refusals::refuse_if;
use state::{EndpointAddress, Phase, Refusal, Slot, Tally, Transfer};
use state_slots::{is_data_endpoint, is_idle, slot_size};
use state_sound::{in_ram, is_aligned, is_multiple};

// What is to be moved: where, how many bytes, and whether an empty packet closes it.
#[derive(Clone, Copy)]
pub struct Piece {
    pub address: u32,
    pub length: u32,
    pub zlp: bool,
}

// What the caller says against it: what it is to send is too long, what it lent is unfit.
#[derive(Clone, Copy, Default)]
pub struct Faults {
    pub long: bool,
    pub unfit: bool,
}

// Whether the controller can move a piece of memory in this direction.
pub fn piece_fits(incoming: bool, m: u16, address: u32, length: u32) -> bool
    ensures { result ≡ piece_fits incoming m address length }
{
    let inside = in_ram(address, length);
    let even = is_aligned(address);
    if incoming {
        return inside & even;
    }
    let whole = is_multiple(length, m as u32);
    (inside & even) & ((0 < length) & whole)
}

pub fn slot_check(
    powered: bool,
    endpoint: EndpointAddress,
    slot: Slot,
    piece: Piece,
    faults: Faults,
) -> Result<(), Refusal>
    ensures { result ≡ first_refusal (begin_own powered endpoint.index endpoint.incoming piece.address piece.length faults.long faults.unfit slot) }
{
    let able = (powered & slot.enabled) & !slot.stalled;
    refuse_if(!is_data_endpoint(endpoint.index), Refusal::NoDataEndpoint)?;
    refuse_if(faults.long, Refusal::TooLong)?;
    refuse_if(!able, Refusal::Disabled)?;
    refuse_if(!is_idle(slot.phase), Refusal::InHand)?;
    let fits = piece_fits(
        endpoint.incoming,
        slot_size(slot),
        piece.address,
        piece.length,
    );
    refuse_if(faults.unfit | !fits, Refusal::UnfitBuffer)
}

// The slot that has taken a transfer on, with nothing of it moved.
pub fn begun_slot(slot: Slot, piece: Piece) -> Slot
    ensures { result ≡ begun_slot slot piece }
{
    Slot {
        phase: Phase::Busy,
        transfer: Transfer {
            address: piece.address,
            length: piece.length,
            progress: 0,
            zlp: piece.zlp,
        },
        tally: Tally {
            begun: slot.tally.begun.wrapping_add(1),
            ..slot.tally
        },
        ..slot
    }
}
