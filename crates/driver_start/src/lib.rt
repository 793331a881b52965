// Starting a driver (reference: `start` of device.rs).
#![tactic(auto)]

ghost use Rattle.std.specs.Prelude.{◌≡◌};
ghost use Rattle.state.specs.Numbers.{check_number};
ghost use Rattle.state.specs.Refusals.{first_refusal};
ghost use Rattle.state_slots.specs.Slots.{off_slot};
ghost use Rattle.state_call.specs.Turn.{turn_at};
ghost use Rattle.driver_start.specs.Start.{configured_slot, start_own, start_conditions, start_call};

use driver_sound::driver_sound;
use state::refusals::refuse_if;
use state::{Driver, EP0_SIZE, EndpointConfig, Events, Refusal, Slot, State, Wakes};
use state_call::Entry;
use state_events::Event;
use state_slots::reset;
use state_slots::waking::no_wakes;
use state_sound::sound;

#[derive(Clone, Copy)]
pub struct StartResult {
    pub state: State,
    pub answer: Result<(), Refusal>,
    pub events: Events,
    pub wakes: Wakes,
}

// Slot i as a start leaves it, with what is allocated for it.
fn start_slot(i: usize, slot: Slot, config: Option<EndpointConfig>) -> Slot
    ensures { result ≡ configured_slot (off_slot i slot) config }
{
    Slot {
        config,
        ..reset(slot, 2 <= i, false)
    }
}

fn start_check(entry: Entry, size: u16) -> Result<(), Refusal>
    ensures { result ≡ first_refusal (turn_at entry (start_own size)) }
{
    entry.admit()?;
    refuse_if(size as u32 != EP0_SIZE, Refusal::ControlPacketSize)
}

// The state takes over the driver's layout and memory. Transfers in hand are cut; the device is off until it is powered.
#[tactic(auto, unfolding(crate::specs::Start::start_call, state_call::specs::Outcome::or_else))]
pub fn start(
    mut state: State,
    events: Events,
    driver: Driver,
    control_max_packet_size: u16,
) -> StartResult
    ensures answer { result.answer ≡ (start_call state events driver control_max_packet_size).answer }
    ensures state { result.state ≡ (start_call state events driver control_max_packet_size).state }
    ensures events { result.events ≡ (start_call state events driver control_max_packet_size).events }
    ensures wakes { result.wakes ≡ (start_call state events driver control_max_packet_size).wakes }
    ensures number { check_number result.answer ≡ check_number (first_refusal (start_conditions state events driver control_max_packet_size)) }
{
    let entry = Entry {
        good: sound(state, events) && driver_sound(driver),
        awaited: state.awaited,
    };
    let check = start_check(entry, control_max_packet_size);
    let wakes = no_wakes();
    if let Err(refusal) = check {
        return StartResult {
            state,
            answer: Err(refusal),
            events,
            wakes,
        };
    }
    for (i, slot) in state.endpoints.iter_mut().enumerate() {
        *slot = start_slot(i, *slot, driver.endpoints[i]);
    }
    state.ep0_address = driver.memory;
    state.powered = false;
    state.setup = None;
    StartResult {
        state,
        answer: Ok(()),
        events: Events {
            events: u8::from(Event::PowerDetected),
        },
        wakes,
    }
}
