// The window of OUT endpoints (reference: `out_window` and `start` of device.rs).
#![tactic(auto)]

ghost use Rattle.std.specs.Prelude.{◌≡◌, ◌+◌, ◌≤◌, not, cond, []};
ghost use Rattle.ops.specs.Lists.{Room, Adds};
ghost use Rattle.base.specs.Bits.{bit};
ghost use Rattle.state_slots.specs.Slots.{idleb, busyb};
ghost use Rattle.regs_endpoint.specs.Endpoint.{window_ops};
ghost use Rattle.transfer_window.specs.Window.{in_hand_count, window_of};

use ops::OpList;
use regs_endpoint::set_out_window;
use state::{Slot, State};
use state_slots::{is_busy, is_idle};

// One more in hand, where a slot isn't idle.
pub fn counted(count: u32, slot: Slot) -> u32
    requires { count ≤ 14 }
    ensures { result ≡ count + bit (not (idleb slot.phase)) }
{
    count + !is_idle(slot.phase) as u32
}

// How many of the first `most` data slots, from slot 2 on, have a transfer in hand. A filter that is counted was tried, and
// takes 80 instructions more.
pub fn in_hand_count(state: &State, most: usize) -> u32
    requires { most ≤ 14 }
    ensures { result ≡ in_hand_count state.now most }
{
    let mut count = 0;
    for n in 0..most {
        count = counted(count, state.endpoints[n + 2]);
    }
    count
}

// By how many data slots have a transfer in hand: 4 where endpoints share the bus, else 3.
pub fn window_of(count: u32) -> u32
    ensures { result ≡ window_of count }
{
    if 1 < count { 4 } else { 3 }
}

// The window of an OUT endpoint, where it is busy.
pub fn window_at(list: &mut OpList<'_>, slot: Slot, window: u32, index: u8)
    requires { Room 1 list.old }
    ensures { Adds list.old (cond (busyb slot.phase) (window_ops index window) []) list.new }
{
    if is_busy(slot.phase) {
        set_out_window(list, index as u32, window);
    }
}
