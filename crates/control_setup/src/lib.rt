// A SETUP fetched (reference: `setup` of control.rs).
#![tactic(auto)]

ghost use Rattle.std.specs.Prelude.{◌≡◌};
ghost use Rattle.control_setup.specs.Setup.{fetched, setup_call, setup_numbers, setup_says};

use state::{Events, Setup, State};
use state_call::{Answered, Entry};

// A SETUP's eight bytes, and the generation that the stages of their transfer are to name.
#[derive(Clone, Copy)]
pub struct Fetched {
    pub setup: Setup,
    pub generation: u32,
}

fn fetch(setup: Option<Setup>, generation: u32) -> Option<Fetched>
    ensures { result ≡ fetched generation setup }
{
    Some(Fetched {
        setup: setup?,
        generation,
    })
}

// Fetches a SETUP that waits.
pub fn setup(mut state: State, events: Events) -> Answered<Option<Fetched>>
    ensures answer { result.answer ≡ (setup_call state events).answer }
    ensures state { result.state ≡ (setup_call state events).state }
    ensures wakes { result.wakes ≡ (setup_call state events).wakes }
    ensures numbers { setup_numbers result.answer ≡ setup_says state events }
{
    let check = Entry::new(&state, events).admit();
    if let Err(refusal) = check {
        return Answered::quiet(state, Err(refusal));
    }
    let waiting = state.setup.take();
    let fetched = fetch(waiting, state.control_generation);
    Answered::quiet(state, Ok(fetched))
}
