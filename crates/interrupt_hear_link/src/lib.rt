// Which reading of the link is heard, by what is awaited.
#![tactic(auto)]

ghost use Rattle.std.specs.Prelude.{◌≤◌};
ghost use Rattle.ops.specs.Lists.{Room};
ghost use Rattle.state.specs.Awaiting.{awaiting_number};
ghost use Rattle.interrupt_asks.specs.Turns.{Takes};
ghost use Rattle.interrupt_readings.specs.Matched.{reading_own};
ghost use Rattle.interrupt_readings.specs.Heard.{link_heard};

use interrupt_asks::{Sight, Turn};
use interrupt_link::LinkEffect;
use interrupt_messages::{on_message_word, on_term_status, on_warm_status};
use interrupt_readings::{on_link_flags, on_link_status, on_port_capability};
use ops::OpList;
use state::{Awaiting, Reading, Refusal};

// A reading while one of the link's, or none, is awaited.
pub fn hear_link(
    list: &mut OpList<'_>,
    sight: Sight,
    effect: LinkEffect,
    reading: Reading,
) -> Result<Turn<LinkEffect>, Refusal>
    requires room { Room 128 list.old }
    requires link { awaiting_number sight.awaited.next ≤ 6 }
    ensures { Takes list.old (reading_own sight.awaited.next reading) (link_heard sight effect sight.awaited.next reading) result list.new }
{
    match sight.awaited.next {
        Some(Awaiting::LinkFlags) => on_link_flags(effect, reading),
        Some(Awaiting::LinkStatus) => on_link_status(list, sight, effect, reading),
        Some(Awaiting::PortCapability) => on_port_capability(list, sight, effect, reading),
        Some(Awaiting::TermPresStatus) => on_term_status(list, sight, effect, reading),
        Some(Awaiting::MessageWord) => on_message_word(list, sight, effect, reading),
        Some(Awaiting::WarmResetStatus) => on_warm_status(list, sight, effect, reading),
        _ => Err(Refusal::OutOfTurn),
    }
}
