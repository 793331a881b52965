// What an interrupt does where the link has come to another state (reference: `link_irq` of device.rs).
#![tactic(auto)]

ghost use Rattle.std.specs.Prelude.{◌≡◌, ◌+◌, ◌++◌};
ghost use Rattle.ops.specs.Lists.{Room, Adds};
ghost use Rattle.regs_link.specs.Link.{phy_write_ops, hot_reset_done_ops};
ghost use Rattle.regs_device.specs.Device.{bus_reset_ops};
ghost use Rattle.interrupt_link.specs.Actions.{rx_detected, link_reset, recovered, recovered_ops, came_up, asleep, link_change, link_change_ops, changed, changed_ops};

use interrupt_link::{LinkEffect, link_reset, raise_if};
use ops::{Field, OpList};
use regs_device::bus_reset;
use regs_link::{delay_cycles, go_disabled, hot_reset_done, link_ack, phy_write};
use state::LinkState;
use state_events::{Event, raise_event};

// RXDET: the host is gone.
fn rx_detected(list: &mut OpList<'_>, ep0: u32, effect: LinkEffect) -> LinkEffect
    requires { Room 83 list.old }
    ensures effect { result ≡ rx_detected effect }
    ensures list { Adds list.old (bus_reset_ops ep0) list.new }
{
    bus_reset(list, ep0);
    LinkEffect {
        resets: true,
        suspended: false,
        reset_seen: false,
        low_power: false,
        events: raise_if(effect.reset_seen, effect.events, Event::Suspend),
    }
}

#[tactic(auto, using(regs_device::specs::DeviceLaws::bus_reset_length))]
fn hot_reset(list: &mut OpList<'_>, ep0: u32, effect: LinkEffect) -> LinkEffect
    requires { Room 84 list.old }
    ensures effect { result ≡ link_reset effect }
    ensures list { Adds list.old (bus_reset_ops ep0 ++ hot_reset_done_ops) list.new }
{
    bus_reset(list, ep0);
    hot_reset_done(list);
    link_reset(effect)
}

// RECOVERY: out of low power the PHY gets the values of a link that is awake.
fn recover(list: &mut OpList<'_>, effect: LinkEffect) -> LinkEffect
    requires { Room 5 list.old }
    ensures effect { result ≡ recovered effect }
    ensures list { Adds list.old (recovered_ops effect.low_power) list.new }
{
    if !effect.low_power {
        return effect;
    }
    delay_cycles(list, 4000);
    phy_write(list, 0x12, 0x67c8);
    LinkEffect {
        low_power: false,
        ..effect
    }
}

// U0: the first is the only sign that link training finished; a later one ends a suspend.
fn come_up(effect: LinkEffect) -> LinkEffect
    ensures { result ≡ came_up effect }
{
    if !effect.reset_seen {
        return LinkEffect {
            reset_seen: true,
            events: raise_event(effect.events, Event::Reset),
            ..effect
        };
    }
    if effect.suspended {
        return LinkEffect {
            suspended: false,
            events: raise_event(effect.events, Event::Resume),
            ..effect
        };
    }
    effect
}

// U1, U2 and U3: the PHY gets the values of a link that sleeps. `due`: this is a suspend.
fn fall_asleep(list: &mut OpList<'_>, due: bool, effect: LinkEffect) -> LinkEffect
    requires { Room 4 list.old }
    ensures effect { result ≡ asleep due effect }
    ensures list { Adds list.old (phy_write_ops 0x12 0x65c8) list.new }
{
    phy_write(list, 0x12, 0x65c8);
    LinkEffect {
        suspended: effect.suspended | due,
        low_power: true,
        events: raise_if(due, effect.events, Event::Suspend),
        ..effect
    }
}

fn change(list: &mut OpList<'_>, ep0: u32, link_state: LinkState, effect: LinkEffect) -> LinkEffect
    requires { Room 84 list.old }
    ensures effect { result ≡ link_change link_state effect }
    ensures list { Adds list.old (link_change_ops link_state ep0 effect.low_power) list.new }
{
    match link_state {
        LinkState::U0 => come_up(effect),
        LinkState::U1 | LinkState::U2 => fall_asleep(list, false, effect),
        LinkState::U3 => fall_asleep(list, !effect.suspended & effect.reset_seen, effect),
        LinkState::DISABLED => {
            go_disabled(list, false);
            effect
        }
        LinkState::RXDET => rx_detected(list, ep0, effect),
        LinkState::RECOVERY => recover(list, effect),
        LinkState::HOTRST => hot_reset(list, ep0, effect),
        LinkState::OTHER => effect,
    }
}

// The state of the link has changed, where its flag says so.
pub fn state_changed(
    list: &mut OpList<'_>,
    ep0: u32,
    flag: bool,
    link_state: LinkState,
    effect: LinkEffect,
) -> LinkEffect
    requires { Room 85 list.old }
    ensures effect { result ≡ changed flag link_state effect }
    ensures list { Adds list.old (changed_ops flag link_state ep0 effect.low_power) list.new }
{
    if !flag {
        return effect;
    }
    link_ack(list, Field::LinkIfStateChg);
    change(list, ep0, link_state, effect)
}
