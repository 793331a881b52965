// Sets of slots: each has the bit of its number.
ghost use Rattle.std.specs.Prelude.{◌≡◌};
ghost use Rattle.state_slots.specs.Waking.{slot_set, add_slot, no_wakes, wake_slot, wake_all};

use state::Wakes;

// The set of one slot; empty where no slot has the number.
pub fn slot_set(i: usize) -> u16
    ensures { result ≡ slot_set i }
{
    if i < 16 {
        return 1u16 << i;
    }
    0
}

// The set with a further slot.
pub fn add_slot(slots: u16, i: usize) -> u16
    ensures { result ≡ add_slot slots i }
{
    let one = slot_set(i);
    if one == 0 {
        return slots;
    }
    if slots / one % 2 == 1 {
        return slots;
    }
    slots + one
}

pub fn no_wakes() -> Wakes
    ensures { result ≡ no_wakes }
{
    Wakes {
        bus: false,
        slots: 0,
    }
}

pub fn wake_slot(i: usize) -> Wakes
    ensures { result ≡ wake_slot i }
{
    Wakes {
        bus: false,
        slots: slot_set(i),
    }
}

pub fn wake_all() -> Wakes
    ensures { result ≡ wake_all }
{
    Wakes {
        bus: true,
        slots: 65535,
    }
}
