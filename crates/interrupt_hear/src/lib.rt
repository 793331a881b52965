// A reading, whichever is awaited, by what it looks at and changes: the call that has the state takes these pieces out of it
// and stores them back.
#![tactic(auto)]

ghost use Rattle.ops.specs.Lists.{Room};
ghost use Rattle.interrupt_asks.specs.Turns.{Takes};
ghost use Rattle.interrupt_readings.specs.Matched.{reading_own};
ghost use Rattle.interrupt_hear.specs.Hear.{heard_by};

use interrupt_asks::{Sight, Turn};
use interrupt_hear_link::hear_link;
use interrupt_hear_transfer::hear_transfer;
use interrupt_link::LinkEffect;
use interrupt_transfer::TransferEffect;
use ops::OpList;
use state::readings::awaiting_number;
use state::{Reading, Refusal};

// What a reading may change.
#[derive(Clone, Copy)]
pub struct Effects {
    pub link: LinkEffect,
    pub transfer: TransferEffect,
}

// The first six readings are the link's; behind them come those of the transfers.
#[tactic(auto, unfolding(crate::specs::Hear::heard_by))]
pub fn hear(
    list: &mut OpList<'_>,
    sight: Sight,
    effects: Effects,
    reading: Reading,
) -> Result<Turn<Effects>, Refusal>
    requires { Room 128 list.old }
    ensures { Takes list.old (reading_own sight.awaited.next reading) (heard_by sight effects reading) result list.new }
{
    if awaiting_number(sight.awaited.next) <= 6 {
        let turn = hear_link(list, sight, effects.link, reading)?;
        return Ok(Turn {
            effect: Effects {
                link: turn.effect,
                ..effects
            },
            awaited: turn.awaited,
        });
    }
    let turn = hear_transfer(list, sight, effects.transfer, reading)?;
    Ok(Turn {
        effect: Effects {
            transfer: turn.effect,
            ..effects
        },
        awaited: turn.awaited,
    })
}
