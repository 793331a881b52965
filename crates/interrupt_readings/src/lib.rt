// A reading of an interrupt, by the one that is awaited: another is refused with 24, one out of range with 11.
#![tactic(auto, unfolding(crate::specs::Heard::heard_link))]

ghost use Rattle.std.specs.Prelude.{◌≡◌, [], Some};
ghost use Rattle.ops.specs.Lists.{Room};
ghost use Rattle.ops.specs.declared.OpList.{OpList};
ghost use Rattle.state.specs.declared.Awaiting.TheVariants as awaiting;
ghost use Rattle.interrupt_asks.specs.Turns.{Hears, Takes};
ghost use Rattle.interrupt_readings.specs.Matched.{reading_own};
ghost use Rattle.interrupt_readings.specs.Heard.{from_change, link_heard};

use interrupt_asks::{Sight, Turn, ask, behind_change};
use interrupt_change::state_changed;
use interrupt_link::LinkEffect;
use ops::{Field, OpList};
use regs_link::{link_ack, link_power_allow};
use state::fresh::nothing_awaited;
use state::{Awaited, Awaiting, Reading, Refusal};

// The flags are remembered until handling ends.
pub fn on_link_flags(effect: LinkEffect, reading: Reading) -> Result<Turn<LinkEffect>, Refusal>
    ensures { (l : OpList) (g : Sight) → Takes l (reading_own (Some awaiting.LinkFlags) reading) (link_heard g effect (Some awaiting.LinkFlags) reading) result l }
{
    let Reading::LinkFlags(flags) = reading else {
        return Err(Refusal::OutOfTurn);
    };
    Ok(Turn {
        effect,
        awaited: Awaited {
            next: Some(Awaiting::LinkStatus),
            flags,
            ..nothing_awaited()
        },
    })
}

// A change of the link's state, and what follows.
fn from_change(
    list: &mut OpList<'_>,
    ep0: u32,
    awaited: Awaited,
    effect: LinkEffect,
) -> Turn<LinkEffect>
    requires { Room 92 list.old }
    ensures { Hears list.old (from_change ep0 awaited awaited.link_state effect []) result list.new }
{
    let flags = awaited.flags;
    let effect = state_changed(
        list,
        ep0,
        flags.link_if_state_chg,
        awaited.link_state,
        effect,
    );
    let next = behind_change(list, flags);
    Turn {
        effect,
        awaited: ask(awaited, next),
    }
}

// The link's state is remembered too. Silicon from revision 3 on is asked for its port capability first, where that is due.
pub fn on_link_status(
    list: &mut OpList<'_>,
    sight: Sight,
    effect: LinkEffect,
    reading: Reading,
) -> Result<Turn<LinkEffect>, Refusal>
    requires { Room 128 list.old }
    ensures { Takes list.old (reading_own (Some awaiting.LinkStatus) reading) (link_heard sight effect (Some awaiting.LinkStatus) reading) result list.new }
{
    let Reading::LinkStatus(status) = reading else {
        return Err(Refusal::OutOfTurn);
    };
    let seen = Awaited {
        link_state: status.link_state,
        ..sight.awaited
    };
    if (3 <= sight.revision) & seen.flags.link_if_rx_set_fc {
        link_ack(list, Field::LinkIfRxSetFc);
        return Ok(Turn {
            effect,
            awaited: ask(seen, Some(Awaiting::PortCapability)),
        });
    }
    Ok(from_change(list, sight.ep0, seen, effect))
}

pub fn on_port_capability(
    list: &mut OpList<'_>,
    sight: Sight,
    effect: LinkEffect,
    reading: Reading,
) -> Result<Turn<LinkEffect>, Refusal>
    requires { Room 128 list.old }
    ensures { Takes list.old (reading_own (Some awaiting.PortCapability) reading) (link_heard sight effect (Some awaiting.PortCapability) reading) result list.new }
{
    let Reading::PortCapability(allow) = reading else {
        return Err(Refusal::OutOfTurn);
    };
    link_power_allow(list, allow);
    Ok(from_change(list, sight.ep0, sight.awaited, effect))
}
