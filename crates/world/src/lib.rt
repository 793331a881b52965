// What a script's calls stand on.
#![tactic(auto)]

ghost use Rattle.std.specs.Prelude.{◌≡◌};
ghost use Rattle.driver_new.specs.New.{no_driver};
ghost use Rattle.state.specs.Fresh.{fresh_state};

use state::{Driver, Events, State};

// The driver in the making, the state and the pending events.
#[derive(Clone, Copy)]
pub struct World {
    pub driver: Driver,
    pub state: State,
    pub events: Events,
}

// Nothing was started, and the driver has no memory.
pub fn fresh() -> World
    ensures { result ≡ record { driver = no_driver; state = fresh_state; events = record { events = 0 } } }
{
    World {
        driver: driver_new::no_driver(),
        state: state::fresh::fresh(),
        events: Events { events: 0 },
    }
}

impl World {
    pub fn with_state(self, state: State) -> World
        ensures { result ≡ record self { state = state } }
    {
        World { state, ..self }
    }

    pub fn with_driver(self, driver: Driver) -> World
        ensures { result ≡ record self { driver = driver } }
    {
        World { driver, ..self }
    }

    pub fn with_events(self, events: Events) -> World
        ensures { result ≡ record self { events = events } }
    {
        World { events, ..self }
    }
}
