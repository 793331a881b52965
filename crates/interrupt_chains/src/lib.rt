// The readings of a chain (reference: `data_irq` of device.rs).
#![tactic(auto, unfolding(interrupt_followers::specs::Pieces::heard_pieces))]

ghost use Rattle.std.specs.Prelude.{Some};
ghost use Rattle.ops.specs.Lists.{Room};
ghost use Rattle.ops.specs.declared.OpList.{OpList};
ghost use Rattle.state.specs.declared.Awaiting.TheVariants as awaiting;
ghost use Rattle.interrupt_asks.specs.Turns.{Takes};
ghost use Rattle.interrupt_readings.specs.Matched.{reading_own};
ghost use Rattle.interrupt_followers.specs.Pieces.{pieces_heard};

use interrupt_asks::{Sight, Turn};
use interrupt_transfer::{TransferEffect, report_pieces};
use ops::OpList;
use state::refusals::refuse_if;
use state::{Awaited, Awaiting, EndpointAddress, Reading, Refusal};
use transfer_chain::Report;

// The packets of a chain are remembered until its last length is known.
pub fn on_chain_packets(
    sight: Sight,
    effect: TransferEffect,
    reading: Reading,
) -> Result<Turn<TransferEffect>, Refusal>
    ensures { (l : OpList) → Takes l (reading_own (Some awaiting.ChainPackets) reading) (pieces_heard sight effect (Some awaiting.ChainPackets) reading) result l }
{
    let Reading::ChainPackets(packets) = reading else {
        return Err(Refusal::OutOfTurn);
    };
    refuse_if(255 < packets, Refusal::OutOfRange)?;
    Ok(Turn {
        effect,
        awaited: Awaited {
            next: Some(Awaiting::LastLength),
            packets: packets as u8,
            ..sight.awaited
        },
    })
}

pub fn on_last_length(
    list: &mut OpList<'_>,
    sight: Sight,
    effect: TransferEffect,
    reading: Reading,
) -> Result<Turn<TransferEffect>, Refusal>
    requires { Room 128 list.old }
    ensures { Takes list.old (reading_own (Some awaiting.LastLength) reading) (pieces_heard sight effect (Some awaiting.LastLength) reading) result list.new }
{
    let Reading::LastLength(last) = reading else {
        return Err(Refusal::OutOfTurn);
    };
    refuse_if(65535 < last, Refusal::OutOfRange)?;
    let endpoint = EndpointAddress {
        index: sight.awaited.endpoint,
        incoming: false,
    };
    let report = Report {
        packets: sight.awaited.packets as u32,
        last,
    };
    Ok(report_pieces(list, sight, effect, endpoint, report))
}
