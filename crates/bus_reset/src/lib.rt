// Resets of the control transfer and of the bus (reference: `control_reset` and `bus_reset` of device.rs).
#![tactic(auto)]

ghost use Rattle.std.specs.Prelude.{◌≡◌};
ghost use Rattle.base.specs.Each.{change};
ghost use Rattle.ops.specs.Lists.{Room, Adds};
ghost use Rattle.regs_device.specs.Device.{bus_reset_ops};
ghost use Rattle.state.specs.Setters.{control_of, with_control};
ghost use Rattle.bus_reset.specs.Reset.{ended_control, slot_after, control_reset, bus_reset_state};

use ops::OpList;
use state::{Slot, State};
use state_slots::reset;
use state_slots::waking::add_slot;

// The stages of the control transfer in hand are over: its generation has passed, and no address waits.
fn stages_over(state: &mut State)
    ensures { state.new ≡ with_control state.old (ended_control (control_of state.old)) }
{
    state.control_generation = state.control_generation.wrapping_add(1);
    state.address = None;
    state.in_last = false;
}

// The control transfer starts over: its stages are cut, and who waits for one is to be woken.
pub fn control_reset(mut state: State) -> State
    ensures { result ≡ control_reset state }
{
    state.endpoints[0] = reset(state.endpoints[0], false, true);
    state.endpoints[1] = reset(state.endpoints[1], false, true);
    stages_over(&mut state); // of the SETUP before
    state.wake = add_slot(state.wake, 0);
    state
}

// What is in hand is cut; every slot is off, but endpoint 0's on where `control` is.
#[inline(always)]
pub fn reset_slots(slots: &mut [Slot; 16], control: bool)
    ensures { slots.new ≡ change (slot_after control) 16 slots.old }
{
    for (i, slot) in slots.iter_mut().enumerate() {
        *slot = reset(*slot, 2 <= i, control & (i < 2));
    }
}

// What a bus reset leaves of the state.
pub fn reset_state(mut state: State) -> State
    ensures { result ≡ bus_reset_state state }
{
    reset_slots(&mut state.endpoints, true);
    state.suspended = false;
    state.low_power = false;
    state.setup = None;
    stages_over(&mut state); // of before the reset
    state.wake = 65535;
    state
}

// Protocol layer, endpoints, address and control transfer start over.
pub fn bus_reset(list: &mut OpList<'_>, state: State) -> State
    requires { Room 83 list.old }
    ensures state { result ≡ bus_reset_state state }
    ensures list { Adds list.old (bus_reset_ops state.ep0_address) list.new }
{
    regs_device::bus_reset(list, state.ep0_address);
    reset_state(state)
}
