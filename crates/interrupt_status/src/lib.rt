// The transfer status, by the slot that it is about (reference: `transfer_irq` of device.rs).
#![tactic(auto)]

ghost use Rattle.std.specs.Prelude.{Some};
ghost use Rattle.ops.specs.Lists.{Room};
ghost use Rattle.state.specs.declared.Awaiting.TheVariants as awaiting;
ghost use Rattle.interrupt_asks.specs.Turns.{Hears, Takes};
ghost use Rattle.interrupt_transfer.specs.Pieces.{status_pieces};
ghost use Rattle.interrupt_readings.specs.Matched.{reading_own};
ghost use Rattle.interrupt_followers.specs.Pieces.{pieces_heard};

use control_report::{setup_flag, status_stage};
use interrupt_asks::{Sight, Turn, ask};
use interrupt_endpoint::endpoint_turn;
use interrupt_transfer::{TransferEffect, complete_pieces};
use ops::OpList;
use regs_control::status_others;
use state::fresh::nothing_awaited;
use state::refusals::refuse_if;
use state::{Awaiting, Reading, Refusal, TransferStatus};

// A status stage goes before a SETUP that is flagged beside it.
#[tactic(auto, unfolding(interrupt_transfer::specs::Pieces::status_pieces))]
fn status_turn(
    list: &mut OpList<'_>,
    sight: Sight,
    effect: TransferEffect,
    status: TransferStatus,
) -> Turn<TransferEffect>
    requires { Room 7 list.old }
    ensures { Hears list.old (status_pieces sight effect status) result list.new }
{
    if status.udif_status {
        status_stage(list, effect.address);
        return Turn {
            effect: TransferEffect {
                address: None,
                ..complete_pieces(1, effect)
            },
            awaited: nothing_awaited(),
        };
    }
    if status.udif_setup {
        setup_flag(list);
        return Turn {
            effect,
            awaited: ask(sight.awaited, Some(Awaiting::SetupBytes)),
        };
    }
    if status.uif_transfer {
        return endpoint_turn(list, sight, effect, status);
    }
    status_others(
        list,
        status.uif_itp,
        status.uif_rx_ping,
        status.uif_fifo_txov,
        status.uif_fifo_rxov,
    );
    Turn {
        effect,
        awaited: nothing_awaited(),
    }
}

#[tactic(auto, unfolding(interrupt_followers::specs::Pieces::heard_pieces))]
pub fn on_transfer_status(
    list: &mut OpList<'_>,
    sight: Sight,
    effect: TransferEffect,
    reading: Reading,
) -> Result<Turn<TransferEffect>, Refusal>
    requires { Room 128 list.old }
    ensures { Takes list.old (reading_own (Some awaiting.TransferStatus) reading) (pieces_heard sight effect (Some awaiting.TransferStatus) reading) result list.new }
{
    let Reading::TransferStatus(status) = reading else {
        return Err(Refusal::OutOfTurn);
    };
    refuse_if(15 < status.ep_id, Refusal::OutOfRange)?;
    Ok(status_turn(list, sight, effect, status))
}
