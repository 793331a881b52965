// The host woken (reference: `Bus` of device.rs).
#![tactic(auto)]

ghost use Rattle.std.specs.Prelude.{◌≡◌, length};
ghost use Rattle.ops.specs.Wrote.{Wrote};
ghost use Rattle.state.specs.Numbers.{check_number};
ghost use Rattle.state.specs.Refusals.{first_refusal};
ghost use Rattle.state_call.specs.Turn.{admitted_at};
ghost use Rattle.bus_wakeup.specs.Wakeup.{wakeup_own, wakeup_conditions, wakeup_call};

use ops::OpList;
use regs_link::ux_exit;
use state::refusals::refuse_if;
use state::{Events, Refusal, State};
use state_call::{ListEntry, Listed};
use state_sound::sound;

fn wakeup_check(lent: ListEntry, powered: bool, suspended: bool) -> Result<(), Refusal>
    ensures { result ≡ first_refusal (admitted_at lent (wakeup_own powered suspended)) }
{
    lent.admit()?;
    refuse_if(!(powered & suspended), Refusal::NotSuspended)
}

// Has the link leave low power, which wakes a host that suspended it.
pub fn wakeup(ops: &mut [u32], state: State, events: Events) -> Listed<()>
    ensures answer { result.answer ≡ (wakeup_call (length ops.old) state events).answer }
    ensures state { result.state ≡ (wakeup_call (length ops.old) state events).state }
    ensures list { Wrote ops.old 0 (wakeup_call (length ops.old) state events).ops result.end ops.new }
    ensures wakes { result.wakes ≡ (wakeup_call (length ops.old) state events).wakes }
    ensures number { check_number result.answer ≡ check_number (first_refusal (wakeup_conditions (length ops.old) state events)) }
{
    let lent = ListEntry::of(ops.len(), sound(state, events), state.awaited);
    let check = wakeup_check(lent, state.powered, state.suspended);
    if let Err(refusal) = check {
        return Listed::quiet(state, Err(refusal));
    }
    let mut list = OpList::new(ops);
    ux_exit(&mut list);
    Listed::wrote(state, Ok(()), list.end)
}
