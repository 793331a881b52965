// What an interrupt does for the link: terminations, messages, a warm reset, and what is shared with a change of its state
// (reference: `link_irq` of device.rs).
#![tactic(auto)]

ghost use Rattle.std.specs.Prelude.{◌≡◌};
ghost use Rattle.ops.specs.Lists.{Room, Adds};
ghost use Rattle.interrupt_link.specs.Actions.{raise_if, link_reset, term_present, lmp_subtype, message_ops, warmed, warmed_ops};

use ops::OpList;
use regs_device::bus_reset;
use regs_link::{
    delay_cycles, go_disabled, link_power_allow, tx_cap_vld, tx_port_cap, tx_port_cfg_res, u2_timer,
};
use state::Events;
use state_events::{Event, raise_event};

// The subtypes of link management packets that are heard (USB 3.2, 8.4.1).
const SET_LINK_FUNCTION: u32 = 1;

const U2_INACTIVITY_TIMEOUT: u32 = 2;

const PORT_CAPABILITY: u32 = 4;

const PORT_CONFIGURATION: u32 = 5;

const PORT_CONFIGURATION_RESPONSE: u32 = 6;

// What a reading of the link changes beside the registers: whether the bus is reset, the link's flags, the events.
#[derive(Clone, Copy)]
pub struct LinkEffect {
    pub resets: bool,
    pub suspended: bool,
    pub reset_seen: bool,
    pub low_power: bool,
    pub events: Events,
}

pub fn raise_if(due: bool, events: Events, event: Event) -> Events
    ensures { result ≡ raise_if due events event }
{
    if due {
        return raise_event(events, event);
    }
    events
}

// A hot or warm reset from the host.
pub fn link_reset(effect: LinkEffect) -> LinkEffect
    ensures { result ≡ link_reset effect }
{
    LinkEffect {
        resets: true,
        suspended: false,
        reset_seen: true,
        low_power: false,
        events: raise_event(effect.events, Event::Reset),
    }
}

// Terminations that are gone.
pub fn term_status(present: bool, effect: LinkEffect) -> LinkEffect
    ensures { result ≡ term_present present effect }
{
    if present {
        return effect;
    }
    LinkEffect {
        reset_seen: false,
        events: raise_if(effect.reset_seen, effect.events, Event::Suspend),
        ..effect
    }
}

fn subtype_of(word: u32) -> u32
    ensures { result ≡ lmp_subtype word }
{
    word / 32 % 16
}

// Word 0 of a link management packet, by its subtype.
pub fn message(list: &mut OpList<'_>, revision: u8, word: u32)
    requires { Room 4 list.old }
    ensures { Adds list.old (message_ops revision word) list.new }
{
    match subtype_of(word) {
        PORT_CAPABILITY => tx_port_cap(list),
        PORT_CONFIGURATION => tx_port_cfg_res(list),
        PORT_CONFIGURATION_RESPONSE => tx_cap_vld(list),
        U2_INACTIVITY_TIMEOUT => u2_timer(list, word / 512 % 256),
        SET_LINK_FUNCTION if revision < 3 => link_power_allow(list, word / 1024 % 2 == 1),
        _ => {}
    }
}

// A warm reset: the link is held down for 16 cycles.
#[tactic(auto, using(regs_device::specs::DeviceLaws::bus_reset_length))]
pub fn warm_status(list: &mut OpList<'_>, ep0: u32, warm: bool, effect: LinkEffect) -> LinkEffect
    requires { Room 86 list.old }
    ensures effect { result ≡ warmed warm effect }
    ensures list { Adds list.old (warmed_ops warm ep0) list.new }
{
    if !warm {
        return effect;
    }
    bus_reset(list, ep0);
    go_disabled(list, true);
    delay_cycles(list, 16);
    go_disabled(list, false);
    link_reset(effect)
}
