// The byte of pending events (reference: `raise` and `poll` of device.rs).
#![tactic(auto)]

ghost use Rattle.std.specs.Prelude.{◌≡◌, option_map};
ghost use Rattle.std.specs.List.{find};
ghost use Rattle.state_events.specs.Bytes.{pendingb, events_soundb};
ghost use Rattle.state_events.specs.Events.{event_number, event_of, with_event, without_event, only_reset, raised, raise_byte, raise_event, next_pending, without_pending};

use state::{Events, POWER, RESET, RESUME, Refusal, SUSPEND};

#[derive(Clone, Copy, PartialEq, Eq)]
pub enum Event {
    PowerDetected,
    Reset,
    Suspend,
    Resume,
}

// The bit of an event.
impl From<Event> for u8 {
    ghost from_gives = { λ event number. number ≡ event_number event };

    fn from(event: Event) -> u8 {
        match event {
            Event::PowerDetected => POWER,
            Event::Reset => RESET,
            Event::Suspend => SUSPEND,
            Event::Resume => RESUME,
        }
    }
}

// The event with a bit; any other number is out of range.
impl TryFrom<u8> for Event {
    type Error = Refusal;

    ghost try_from_gives = { λ number outcome. outcome ≡ event_of number };

    fn try_from(number: u8) -> Result<Event, Refusal> {
        match number {
            POWER => Ok(Event::PowerDetected),
            RESET => Ok(Event::Reset),
            SUSPEND => Ok(Event::Suspend),
            RESUME => Ok(Event::Resume),
            _ => Err(Refusal::OutOfRange),
        }
    }
}

fn is_pending(events: u8, event: Event) -> bool
    ensures { result ≡ pendingb events (event_number event) }
{
    let flag = u8::from(event);
    events / flag % 2 == 1
}

pub fn events_sound(events: Events) -> bool
    ensures { result ≡ events_soundb events.events }
{
    let suspend = is_pending(events.events, Event::Suspend);
    let resume = is_pending(events.events, Event::Resume);
    !(suspend & resume)
}

fn with_event(events: u8, event: Event) -> u8
    ensures { result ≡ with_event events (event_number event) }
{
    if is_pending(events, event) {
        return events;
    }
    events + u8::from(event)
}

fn without_event(events: u8, event: Event) -> u8
    ensures { result ≡ without_event events (event_number event) }
{
    if is_pending(events, event) {
        return events - u8::from(event);
    }
    events
}

// RESET beside nothing but POWER.
fn only_reset(events: u8) -> u8
    ensures { result ≡ only_reset events }
{
    if is_pending(events, Event::PowerDetected) {
        return RESET + POWER;
    }
    RESET
}

// SUSPEND and RESUME take each other back.
fn after_raise(events: u8, event: Event) -> u8
    ensures { result ≡ raised events (event_number event) }
{
    match event {
        Event::Reset => only_reset(events),
        Event::Suspend if is_pending(events, Event::Resume) => without_event(events, Event::Resume),
        Event::Resume if is_pending(events, Event::Suspend) => without_event(
            events,
            Event::Suspend,
        ),
        _ => with_event(events, event),
    }
}

// The events after a number was raised; one that is no event leaves them alone.
pub fn raise_byte(events: Events, event: u8) -> Events
    ensures { result.events ≡ raise_byte events.events event }
{
    match Event::try_from(event) {
        Ok(event) => raise_event(events, event),
        Err(_) => events,
    }
}

// An event raised from inside.
pub fn raise_event(events: Events, event: Event) -> Events
    ensures { result ≡ raise_event events event }
{
    Events {
        events: after_raise(events.events, event),
    }
}

// The first of some events that is pending.
fn first_pending(events: u8, precedence: &[Event]) -> Option<&Event>
    ensures { option_map (λ event. event.now) result ≡ find (λ event. pendingb events (event_number event)) precedence.now }
{
    precedence.iter().find(|event| is_pending(events, **event))
}

// The pending event of highest precedence.
pub fn next_pending(events: Events) -> Option<Event>
    ensures { result ≡ next_pending events.events }
{
    let precedence = [
        Event::PowerDetected,
        Event::Reset,
        Event::Suspend,
        Event::Resume,
    ];
    first_pending(events.events, &precedence).copied()
}

// The events without the one that was handed out.
pub fn without(events: Events, pending: Option<Event>) -> Events
    ensures { result.events ≡ without_pending events.events pending }
{
    match pending {
        None => events,
        Some(event) => Events {
            events: without_event(events.events, event),
        },
    }
}
