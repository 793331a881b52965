// Raising an event and asking for one (reference: `raise` and `poll` of device.rs). The state beside the events says whether
// the call is due.
#![tactic(auto)]

ghost use Rattle.std.specs.Prelude.{◌≡◌};
ghost use Rattle.state.specs.Numbers.{check_number};
ghost use Rattle.state.specs.Refusals.{first_refusal};
ghost use Rattle.state_call.specs.Turn.{turn_at};
ghost use Rattle.bus_events.specs.Raise.{raise_own, raise_conditions, raise_call};
ghost use Rattle.bus_events.specs.Poll.{poll_call, poll_numbers, poll_says};

use state::{Events, Refusal, State};
use state_call::{Entry, Said};
use state_events::{Event, next_pending, raise_byte, without};

fn raise_check(entry: Entry, event: u8) -> Result<(), Refusal>
    ensures { result ≡ first_refusal (turn_at entry (raise_own event)) }
{
    entry.admit()?;
    Event::try_from(event)?;
    Ok(())
}

// The byte that is lent is altered where the call isn't refused.
pub fn raise(state: State, events: &mut Events, event: u8) -> Said<()>
    ensures answer { result.answer ≡ (raise_call state events.old event).answer }
    ensures events { events.new ≡ (raise_call state events.old event).events }
    ensures wakes { result.wakes ≡ (raise_call state events.old event).wakes }
    ensures number { check_number result.answer ≡ check_number (first_refusal (raise_conditions state events.old event)) }
{
    let check = raise_check(Entry::new(&state, *events), event);
    if let Err(refusal) = check {
        return Said::quiet(Err(refusal));
    }
    *events = raise_byte(*events, event);
    Said::quiet(Ok(()))
}

// The pending event of highest precedence, which is cleared in the byte that is lent.
pub fn poll(state: State, events: &mut Events) -> Said<Option<Event>>
    ensures answer { result.answer ≡ (poll_call state events.old).answer }
    ensures events { events.new ≡ (poll_call state events.old).events }
    ensures wakes { result.wakes ≡ (poll_call state events.old).wakes }
    ensures numbers { poll_numbers result.answer ≡ poll_says state events.old }
{
    let check = Entry::new(&state, *events).admit();
    if let Err(refusal) = check {
        return Said::quiet(Err(refusal));
    }
    let pending = next_pending(*events);
    *events = without(*events, pending);
    Said::quiet(Ok(pending))
}
