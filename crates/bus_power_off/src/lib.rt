// Power off (reference: `Bus` of device.rs).
#![tactic(auto)]

ghost use Rattle.std.specs.Prelude.{◌≡◌, length};
ghost use Rattle.ops.specs.Lists.{Room, Adds};
ghost use Rattle.ops.specs.Wrote.{Wrote};
ghost use Rattle.state.specs.Numbers.{check_number};
ghost use Rattle.state.specs.Refusals.{first_refusal};
ghost use Rattle.bus_power_off.specs.PowerOff.{shut_ops, off_conditions, power_off_call};

use bus_reset::reset_slots;
use ops::OpList;
use state::{Events, State};
use state_call::{ListEntry, Listed};
use state_slots::waking::wake_all;

// The registers of a device that is on are shut down.
fn shut(list: &mut OpList<'_>, powered: bool)
    requires { Room 128 list.old }
    ensures { Adds list.old (shut_ops powered) list.new }
{
    if powered {
        regs_device::shutdown(list);
    }
}

// Leaves the bus; what is in hand is cut.
pub fn power_off(ops: &mut [u32], mut state: State, events: Events) -> Listed<()>
    ensures answer { result.answer ≡ (power_off_call (length ops.old) state events).answer }
    ensures state { result.state ≡ (power_off_call (length ops.old) state events).state }
    ensures list { Wrote ops.old 0 (power_off_call (length ops.old) state events).ops result.end ops.new }
    ensures wakes { result.wakes ≡ (power_off_call (length ops.old) state events).wakes }
    ensures number { check_number result.answer ≡ check_number (first_refusal (off_conditions (length ops.old) state events)) }
{
    let check = ListEntry::new(ops.len(), &state, events).admit();
    if let Err(refusal) = check {
        return Listed::quiet(state, Err(refusal));
    }
    let mut list = OpList::new(ops);
    shut(&mut list, state.powered);
    reset_slots(&mut state.endpoints, false);
    state.powered = false;
    state.setup = None; // a SETUP that nobody has fetched
    Listed {
        state,
        answer: Ok(()),
        end: list.end,
        wakes: wake_all(),
    }
}
