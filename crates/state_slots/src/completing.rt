// The end of a slot's transfer, and the end of an interrupt (reference: `complete` and `on_interrupt` of device.rs).
ghost use Rattle.std.specs.Prelude.{◌≡◌};
ghost use Rattle.state_slots.specs.Completing.{waiter_of, done_slot, completed_slot, completed_wake, collected};
ghost use Rattle.state_slots.specs.Slots.{moved_slot};

use super::is_busy;
use super::waking::add_slot;
use state::{Events, Phase, Slot, Transfer, Wakes};

// What a report leaves of its slot, and the slots that the end of the interrupt wakes.
#[derive(Clone, Copy)]
pub struct Reported {
    pub slot: Slot,
    pub wake: u16,
}

// The slot in another phase, with another transfer.
pub fn moved(slot: Slot, phase: Phase, transfer: Transfer) -> Slot
    ensures { result ≡ moved_slot slot phase transfer }
{
    Slot {
        phase,
        transfer,
        ..slot
    }
}

// Who waits for slot i: of endpoint 0 slot 0, for both directions.
pub fn waiter_of(i: usize) -> usize
    ensures { result ≡ waiter_of i }
{
    if i < 2 { 0 } else { i }
}

pub fn done(slot: Slot) -> Slot
    ensures { result ≡ done_slot slot }
{
    Slot {
        phase: Phase::Done,
        ..slot
    }
}

// Slot i completed; one that isn't busy stays as it is.
pub fn complete(i: usize, slot: Slot, wake: u16) -> Reported
    ensures slot { result.slot ≡ completed_slot slot }
    ensures wake { result.wake ≡ completed_wake i slot wake }
{
    if is_busy(slot.phase) {
        return Reported {
            slot: done(slot),
            wake: add_slot(wake, waiter_of(i)),
        };
    }
    Reported { slot, wake }
}

// Whom the end of an interrupt wakes; the set is emptied then.
pub fn collect(events: Events, wake: u16) -> Wakes
    ensures { result ≡ collected events wake }
{
    Wakes {
        bus: events.events != 0,
        slots: wake,
    }
}
