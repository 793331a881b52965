// One slot: its number, its phase, and how it forgets its transfer.
#![tactic(auto)]

ghost use Rattle.std.specs.Prelude.{◌≡◌};
ghost use Rattle.state_slots.specs.Slots.{idleb, busyb, slot_number, slot_place, data_endpoint, slot_size, own_buffer, tally_cut, forgotten, reset_slot};
ghost use Rattle.state.specs.Setters.{with_slot};
ghost use Rattle.state.specs.Fresh.{slot_at};

use state::fresh::fresh_slot;
use state::{Buffer, EndpointAddress, Phase, Slot, State, Tally};

pub mod completing;
pub mod waking;

pub fn is_idle(phase: Phase) -> bool
    ensures { result ≡ idleb phase }
{
    phase == Phase::Idle
}

pub fn is_busy(phase: Phase) -> bool
    ensures { result ≡ busyb phase }
{
    phase == Phase::Busy
}

// 2 * index, and 1 more for IN.
pub fn slot_number(endpoint: EndpointAddress) -> usize
    ensures { result ≡ slot_number endpoint.index endpoint.incoming }
{
    (endpoint.index as usize) * 2 + endpoint.incoming as usize
}

// Where an endpoint's slot stands among the sixteen. One that has none is given some other's place, so that a call can
// look there without a test; it then refuses the endpoint, or leaves what stands there.
pub fn slot_place(endpoint: EndpointAddress) -> usize
    ensures { result ≡ slot_place endpoint.index endpoint.incoming }
{
    slot_number(endpoint) % 16
}

// Whether an endpoint has transfers.
pub fn is_data_endpoint(index: u8) -> bool
    ensures { result ≡ data_endpoint index }
{
    (1 <= index) & (index <= 7)
}

// M; 0 where nothing is configured.
pub fn slot_size(slot: Slot) -> u16
    ensures { result ≡ slot_size slot }
{
    slot.config.map_or(0, |config| config.max_packet_size)
}

// The endpoint's own buffer; one of no bytes where nothing is configured.
pub fn own_buffer(slot: Slot) -> Buffer
    ensures { result ≡ own_buffer slot }
{
    let empty = Buffer {
        address: 0,
        size: 0,
    };
    slot.config.map_or(empty, |config| config.buffer)
}

// What a cut transfer adds to its tally; nothing where `cut` is clear.
fn count_cut(tally: Tally, cut: bool, progress: u32) -> Tally
    ensures { result ≡ tally_cut tally cut progress }
{
    if cut {
        return Tally {
            cut: tally.cut.wrapping_add(1),
            bytes: tally.bytes.wrapping_add(progress),
            ..tally
        };
    }
    tally
}

// The slot with its transfer forgotten. One in hand is cut; EP0's stages (`tallied` clear) aren't tallied.
pub fn forget(slot: Slot, tallied: bool, enabled: bool, stalled: bool) -> Slot
    ensures { result ≡ forgotten slot tallied enabled stalled }
{
    let idle = is_idle(slot.phase);
    Slot {
        enabled,
        stalled,
        phase: Phase::Idle,
        tally: count_cut(slot.tally, tallied & !idle, slot.transfer.progress),
        ..slot
    }
}

// The same, and not stalled.
pub fn reset(slot: Slot, tallied: bool, enabled: bool) -> Slot
    ensures { result ≡ reset_slot slot tallied enabled }
{
    forget(slot, tallied, enabled, false)
}

// The slot with a number; a fresh one where no slot has it.
pub fn slot_at(state: State, i: usize) -> Slot
    ensures { result ≡ slot_at state i }
{
    if i < 16 {
        return state.endpoints[i];
    }
    fresh_slot()
}

// The state with another slot; unchanged where no slot has the number.
pub fn with_slot(mut state: State, i: usize, slot: Slot) -> State
    ensures { result ≡ with_slot state i slot }
{
    if i < 16 {
        state.endpoints[i] = slot;
    }
    state
}
