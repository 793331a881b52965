// Power on (reference: `Bus` of device.rs).
#![tactic(auto)]

ghost use Rattle.std.specs.Prelude.{◌≡◌, length};
ghost use Rattle.ops.specs.Wrote.{Wrote};
ghost use Rattle.state.specs.Numbers.{check_number};
ghost use Rattle.state.specs.Refusals.{first_refusal};
ghost use Rattle.state_call.specs.Turn.{admitted_at};
ghost use Rattle.bus_power_on.specs.PowerOn.{on_own, on_conditions, power_on_call};

use bus_reset::bus_reset;
use ops::OpList;
use state::refusals::refuse_if;
use state::{Events, Refusal, State};
use state_call::{ListEntry, Listed};
use state_slots::waking::wake_all;
use state_sound::sound;

fn on_check(lent: ListEntry, ep0_address: u32, revision: u32) -> Result<(), Refusal>
    ensures { result ≡ first_refusal (admitted_at lent (on_own revision ep0_address)) }
{
    lent.admit()?;
    refuse_if(15 < revision, Refusal::OutOfRange)?;
    refuse_if(ep0_address == 0, Refusal::Disabled)
}

// Brings the link up and resets the bus. `revision` is the chip's, which the caller has read.
pub fn power_on(ops: &mut [u32], state: State, events: Events, revision: u32) -> Listed<()>
    ensures answer { result.answer ≡ (power_on_call (length ops.old) state events revision).answer }
    ensures state { result.state ≡ (power_on_call (length ops.old) state events revision).state }
    ensures list { Wrote ops.old 0 (power_on_call (length ops.old) state events revision).ops result.end ops.new }
    ensures wakes { result.wakes ≡ (power_on_call (length ops.old) state events revision).wakes }
    ensures number { check_number result.answer ≡ check_number (first_refusal (on_conditions (length ops.old) state events revision)) }
{
    let lent = ListEntry::of(ops.len(), sound(state, events), state.awaited);
    let check = on_check(lent, state.ep0_address, revision);
    if let Err(refusal) = check {
        return Listed::quiet(state, Err(refusal));
    }
    if state.powered {
        return Listed {
            state,
            answer: Ok(()),
            end: 0,
            wakes: wake_all(),
        };
    }
    let mut list = OpList::new(ops);
    regs_init::init(&mut list, revision);
    let reset = bus_reset(&mut list, state);
    Listed {
        state: State {
            revision: revision as u8,
            powered: true,
            reset_seen: false,
            ..reset
        },
        answer: Ok(()),
        end: list.end,
        wakes: wake_all(),
    }
}
