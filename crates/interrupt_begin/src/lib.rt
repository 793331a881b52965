// An interrupt begun, and what its readings share with it (reference: `on_interrupt` of device.rs).
#![tactic(auto)]

ghost use Rattle.std.specs.Prelude.{◌≡◌, Err, length};
ghost use Rattle.ops.specs.Wrote.{Wrote};
ghost use Rattle.state_slots.specs.Waking.{no_wakes};
ghost use Rattle.interrupt_asks.specs.Settled.{interrupt_numbers};
ghost use Rattle.interrupt_begin.specs.Begin.{first_awaited, interrupt_call, interrupt_says, door};

use interrupt_asks::{InterruptResult, settle};
use state::fresh::nothing_awaited;
use state::refusals::refuse_if;
use state::{Awaited, Awaiting, Events, Refusal, State};
use state_call::ListEntry;
use state_slots::waking::no_wakes;

// A refused call changes nothing.
pub fn refused(refusal: Refusal, state: State, events: Events) -> InterruptResult
    ensures answer { result.answer ≡ Err refusal }
    ensures state { result.state ≡ state }
    ensures events { result.events ≡ events }
    ensures end { result.end ≡ 0 }
    ensures wakes { result.wakes ≡ no_wakes }
{
    InterruptResult {
        state,
        events,
        answer: Err(refusal),
        end: 0,
        wakes: no_wakes(),
    }
}

// The link's flags are read first; unpowered, nothing is.
fn first_awaited(powered: bool) -> Awaited
    ensures { result ≡ first_awaited powered }
{
    Awaited {
        next: powered.then_some(Awaiting::LinkFlags),
        ..nothing_awaited()
    }
}

// Begins the handling of an interrupt.
pub fn interrupt(ops: &mut [u32], mut state: State, events: Events) -> InterruptResult
    ensures answer { result.answer ≡ (interrupt_call (length ops.old) state events).answer }
    ensures state { result.state ≡ (interrupt_call (length ops.old) state events).state }
    ensures events { result.events ≡ (interrupt_call (length ops.old) state events).events }
    ensures list { Wrote ops.old 0 (interrupt_call (length ops.old) state events).ops result.end ops.new }
    ensures wakes { result.wakes ≡ (interrupt_call (length ops.old) state events).wakes }
    ensures numbers { interrupt_numbers result.answer ≡ interrupt_says (length ops.old) state events }
{
    let check = ListEntry::new(ops.len(), &state, events).admit();
    if let Err(refusal) = check {
        return refused(refusal, state, events);
    }
    let ending = settle(first_awaited(state.powered), events, state.wake);
    state.wake = ending.wake;
    state.awaited = ending.awaited;
    InterruptResult {
        state,
        events,
        answer: Ok(ending.awaited.next),
        end: 0,
        wakes: ending.wakes,
    }
}

// 10 and 26, before a reading is looked at.
pub fn is_open(room: usize, good: bool) -> Result<(), Refusal>
    ensures { result ≡ door room good }
{
    refuse_if(room < ops::LIST_NUMBERS, Refusal::ListTooShort)?;
    refuse_if(!good, Refusal::Unsound)
}
