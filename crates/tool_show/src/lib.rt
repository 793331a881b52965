// The whole state, in the lines of docs/REPLAY.md.
#![tactic(auto)]

ghost use Rattle.std.specs.Prelude.{◌≡◌};
ghost use Rattle.tool_show.specs.Lines.{device_text, pending_text, address_text};

use state::{Events, Setup, State};
use tool_print::Line;

pub fn state(rt: &impl Print, state: State, events: Events) {
    device(state, events).print(rt);
    pending(state.setup).print(rt);
    address(state.address).print(rt);
    tool_awaits::awaits(rt, state.awaited.next);
    tool_show_slots::lines(rt, state);
}

fn device(state: State, events: Events) -> Line<150>
    ensures { result ≡ device_text state events }
{
    Line::row(
        b"device",
        &[
            state.ep0_address,
            state.powered as u32,
            state.suspended as u32,
            state.wake as u32,
            state.setup.is_some() as u32,
            state.control_generation,
            state.in_last as u32,
            state.tx_seq as u32,
            state.address.is_some() as u32,
            state.revision as u32,
            state.reset_seen as u32,
            state.low_power as u32,
            events.events as u32,
        ],
    )
}

// Of a SETUP that nobody has fetched; zeros where there is none.
fn pending(setup: Option<Setup>) -> Line<100>
    ensures { result ≡ pending_text setup }
{
    let [a, b, c, d, e, f, g, h] = setup.unwrap_or([0; 8]);
    Line::row(
        b"pending",
        &[
            a as u32, b as u32, c as u32, d as u32, e as u32, f as u32, g as u32, h as u32,
        ],
    )
}

// The address that waits, or 0.
fn address(address: Option<u8>) -> Line<20>
    ensures { result ≡ address_text address }
{
    Line::row(b"address", &[address.unwrap_or(0) as u32])
}
