// The refusals that come before a call's own, and what a call hands back.
#![tactic(auto)]

ghost use Rattle.std.specs.Prelude.{◌≡◌, []};
ghost use Rattle.state.specs.Refusals.{first_refusal};
ghost use Rattle.state_sound.specs.Sound.{soundb};
ghost use Rattle.state_slots.specs.Waking.{no_wakes};
ghost use Rattle.state_call.specs.Turn.{turn_at, admitted_at};

use state::readings::is_awaiting;
use state::refusals::refuse_if;
use state::{Awaited, Events, Refusal, State, Wakes};
use state_slots::waking::no_wakes;
use state_sound::sound;

// What a call says that leaves the state alone.
#[derive(Clone, Copy)]
pub struct Said<A> {
    pub answer: Result<A, Refusal>,
    pub wakes: Wakes,
}

impl<A> Said<A> {
    // Nobody is woken.
    #[inline(always)]
    pub fn quiet(answer: Result<A, Refusal>) -> Said<A>
        ensures answer { result.answer ≡ answer }
        ensures wakes { result.wakes ≡ no_wakes }
    {
        Said {
            answer,
            wakes: no_wakes(),
        }
    }
}

// What a call leaves and says.
#[derive(Clone, Copy)]
pub struct Answered<A> {
    pub state: State,
    pub answer: Result<A, Refusal>,
    pub wakes: Wakes,
}

impl<A> Answered<A> {
    // Nobody is woken.
    #[inline(always)]
    pub fn quiet(state: State, answer: Result<A, Refusal>) -> Answered<A>
        ensures state { result.state ≡ state }
        ensures answer { result.answer ≡ answer }
        ensures wakes { result.wakes ≡ no_wakes }
    {
        Answered {
            state,
            answer,
            wakes: no_wakes(),
        }
    }
}

// The same of a call that is lent a list. `end`: how many of its numbers are taken.
#[derive(Clone, Copy)]
pub struct Listed<A> {
    pub state: State,
    pub answer: Result<A, Refusal>,
    pub end: usize,
    pub wakes: Wakes,
}

impl<A> Listed<A> {
    // The list is written up to `end`, and nobody is woken.
    #[inline(always)]
    pub fn wrote(state: State, answer: Result<A, Refusal>, end: usize) -> Listed<A>
        ensures state { result.state ≡ state }
        ensures answer { result.answer ≡ answer }
        ensures end { result.end ≡ end }
        ensures wakes { result.wakes ≡ no_wakes }
    {
        Listed {
            state,
            answer,
            end,
            wakes: no_wakes(),
        }
    }

    // Nothing is written, and nobody is woken: a refused call, or one that has nothing to do.
    #[inline(always)]
    pub fn quiet(state: State, answer: Result<A, Refusal>) -> Listed<A>
        ensures state { result.state ≡ state }
        ensures answer { result.answer ≡ answer }
        ensures end { result.end ≡ 0 }
        ensures wakes { result.wakes ≡ no_wakes }
    {
        Listed::wrote(state, answer, 0)
    }
}

// What every call looks at before its further tests: what `sound` says, and the reading awaited.
#[derive(Clone, Copy)]
pub struct Entry {
    pub good: bool,
    pub awaited: Awaited,
}

impl Entry {
    // Inlined, so that it costs no call.
    #[inline(always)]
    pub fn new(state: &State, events: Events) -> Entry
        ensures { result ≡ record { good = soundb state.now events; awaited = state.now.awaited } }
    {
        Entry {
            good: sound(*state, events),
            awaited: state.awaited,
        }
    }

    // 26 and 24.
    pub fn admit(self) -> Result<(), Refusal>
        ensures { result ≡ first_refusal (turn_at self []) }
    {
        refuse_if(!self.good, Refusal::Unsound)?;
        refuse_if(is_awaiting(self.awaited.next), Refusal::OutOfTurn)
    }
}

// The same of a call that is lent a list, which has room for so many numbers.
#[derive(Clone, Copy)]
pub struct ListEntry {
    pub room: usize,
    pub entry: Entry,
}

impl ListEntry {
    #[inline(always)]
    pub fn new(room: usize, state: &State, events: Events) -> ListEntry
        ensures { result ≡ record { room = room; entry = record { good = soundb state.now events; awaited = state.now.awaited } } }
    {
        let entry = Entry::new(state, events);
        ListEntry::of(room, entry.good, entry.awaited)
    }

    // The same of values: a state that is lent, and used by value afterwards, is copied once more.
    #[inline(always)]
    pub fn of(room: usize, good: bool, awaited: Awaited) -> ListEntry
        ensures { result ≡ record { room = room; entry = record { good = good; awaited = awaited } } }
    {
        ListEntry {
            room,
            entry: Entry { good, awaited },
        }
    }

    // 10, and then 26 and 24.
    pub fn admit(self) -> Result<(), Refusal>
        ensures { result ≡ first_refusal (admitted_at self []) }
    {
        refuse_if(self.room < ops::LIST_NUMBERS, Refusal::ListTooShort)?;
        self.entry.admit()
    }
}
