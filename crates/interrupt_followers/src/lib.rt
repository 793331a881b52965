// Endpoint 0's readings behind the transfer status, by the slot that each is about (reference: `ep0_irq` of device.rs).
#![tactic(auto, unfolding(crate::specs::Pieces::heard_pieces))]

ghost use Rattle.std.specs.Prelude.{Some};
ghost use Rattle.ops.specs.Lists.{Room};
ghost use Rattle.ops.specs.declared.OpList.{OpList};
ghost use Rattle.state.specs.declared.Awaiting.TheVariants as awaiting;
ghost use Rattle.interrupt_asks.specs.Turns.{Takes};
ghost use Rattle.interrupt_readings.specs.Matched.{reading_own};
ghost use Rattle.interrupt_followers.specs.Pieces.{pieces_heard};

use control_report::{answer_packet, received_slot};
use interrupt_asks::{Sight, Turn};
use interrupt_transfer::{TransferEffect, complete_pieces};
use ops::{OpList, Value};
use regs_control::ep0_rx_answer;
use state::fresh::nothing_awaited;
use state::refusals::refuse_if;
use state::{EP0_SIZE, Reading, Refusal};
use state_slots::is_busy;

pub fn on_setup_bytes(
    effect: TransferEffect,
    reading: Reading,
) -> Result<Turn<TransferEffect>, Refusal>
    ensures { (l : OpList) (g : Sight) → Takes l (reading_own (Some awaiting.SetupBytes) reading) (pieces_heard g effect (Some awaiting.SetupBytes) reading) result l }
{
    let Reading::SetupBytes(bytes) = reading else {
        return Err(Refusal::OutOfTurn);
    };
    Ok(Turn {
        effect: TransferEffect {
            setup: Some(bytes),
            ..effect
        },
        awaited: nothing_awaited(),
    })
}

pub fn on_ep0_length(
    list: &mut OpList<'_>,
    sight: Sight,
    effect: TransferEffect,
    reading: Reading,
) -> Result<Turn<TransferEffect>, Refusal>
    requires { Room 128 list.old }
    ensures { Takes list.old (reading_own (Some awaiting.Ep0Length) reading) (pieces_heard sight effect (Some awaiting.Ep0Length) reading) result list.new }
{
    let Reading::Ep0Length(length) = reading else {
        return Err(Refusal::OutOfTurn);
    };
    refuse_if(EP0_SIZE < length, Refusal::OutOfRange)?;
    let received = TransferEffect {
        slot: received_slot(effect.slot, length),
        ..effect
    };
    ep0_rx_answer(list, Value::Nrdy);
    Ok(Turn {
        effect: complete_pieces(0, received),
        awaited: nothing_awaited(),
    })
}

// Behind the last packet, or where no stage is under way, the status stage completes the slot.
pub fn on_ep0_sequence(
    list: &mut OpList<'_>,
    sight: Sight,
    effect: TransferEffect,
    reading: Reading,
) -> Result<Turn<TransferEffect>, Refusal>
    requires { Room 128 list.old }
    ensures { Takes list.old (reading_own (Some awaiting.Ep0Sequence) reading) (pieces_heard sight effect (Some awaiting.Ep0Sequence) reading) result list.new }
{
    let Reading::Ep0Sequence(sequence) = reading else {
        return Err(Refusal::OutOfTurn);
    };
    refuse_if(31 < sequence, Refusal::OutOfRange)?;
    let follows = sight.in_last | !is_busy(effect.slot.phase);
    answer_packet(list, follows);
    let sent = TransferEffect {
        tx_seq: sequence as u8,
        ..effect
    };
    Ok(Turn {
        effect: if follows {
            sent
        } else {
            complete_pieces(1, sent)
        },
        awaited: nothing_awaited(),
    })
}
