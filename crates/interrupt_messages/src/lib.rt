// The later readings of the link: terminations, a message, a warm reset.
#![tactic(auto, unfolding(interrupt_readings::specs::Heard::heard_link))]

ghost use Rattle.std.specs.Prelude.{Some};
ghost use Rattle.ops.specs.Lists.{Room};
ghost use Rattle.state.specs.declared.Awaiting.TheVariants as awaiting;
ghost use Rattle.interrupt_asks.specs.Turns.{Takes};
ghost use Rattle.interrupt_readings.specs.Matched.{reading_own};
ghost use Rattle.interrupt_readings.specs.Heard.{link_heard};

use interrupt_asks::{Sight, Turn, ask, behind_message, behind_term};
use interrupt_link::{LinkEffect, message, term_status, warm_status};
use ops::OpList;
use state::{Awaiting, Reading, Refusal};

pub fn on_term_status(
    list: &mut OpList<'_>,
    sight: Sight,
    effect: LinkEffect,
    reading: Reading,
) -> Result<Turn<LinkEffect>, Refusal>
    requires { Room 128 list.old }
    ensures { Takes list.old (reading_own (Some awaiting.TermPresStatus) reading) (link_heard sight effect (Some awaiting.TermPresStatus) reading) result list.new }
{
    let Reading::LinkStatus(status) = reading else {
        return Err(Refusal::OutOfTurn);
    };
    let next = behind_term(list, sight.awaited.flags);
    Ok(Turn {
        effect: term_status(status.link_rx_term_pres, effect),
        awaited: ask(sight.awaited, next),
    })
}

pub fn on_message_word(
    list: &mut OpList<'_>,
    sight: Sight,
    effect: LinkEffect,
    reading: Reading,
) -> Result<Turn<LinkEffect>, Refusal>
    requires { Room 128 list.old }
    ensures { Takes list.old (reading_own (Some awaiting.MessageWord) reading) (link_heard sight effect (Some awaiting.MessageWord) reading) result list.new }
{
    let Reading::MessageWord(word) = reading else {
        return Err(Refusal::OutOfTurn);
    };
    message(list, sight.revision, word);
    let next = behind_message(list, sight.awaited.flags);
    Ok(Turn {
        effect,
        awaited: ask(sight.awaited, next),
    })
}

pub fn on_warm_status(
    list: &mut OpList<'_>,
    sight: Sight,
    effect: LinkEffect,
    reading: Reading,
) -> Result<Turn<LinkEffect>, Refusal>
    requires { Room 128 list.old }
    ensures { Takes list.old (reading_own (Some awaiting.WarmResetStatus) reading) (link_heard sight effect (Some awaiting.WarmResetStatus) reading) result list.new }
{
    let Reading::LinkStatus(status) = reading else {
        return Err(Refusal::OutOfTurn);
    };
    Ok(Turn {
        effect: warm_status(list, sight.ep0, status.link_rx_warm_rst, effect),
        awaited: ask(sight.awaited, Some(Awaiting::TransferStatus)),
    })
}
