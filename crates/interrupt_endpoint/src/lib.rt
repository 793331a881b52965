// A flagged transfer, by its endpoint (reference: `transfer_irq` of device.rs).
#![tactic(auto)]

ghost use Rattle.ops.specs.Lists.{Room};
ghost use Rattle.interrupt_asks.specs.Turns.{Hears};
ghost use Rattle.interrupt_transfer.specs.Pieces.{endpoint_pieces};

use interrupt_asks::{Sight, Turn, ask};
use interrupt_transfer::{TransferEffect, report_pieces};
use ops::OpList;
use state::fresh::nothing_awaited;
use state::{Awaited, Awaiting, EndpointAddress, TransferStatus};
use transfer_chain::Report;

// A transfer of endpoint 0, of a data endpoint, or of one that isn't there. IN has no numbers to tell; of OUT they are read.
pub fn endpoint_turn(
    list: &mut OpList<'_>,
    sight: Sight,
    effect: TransferEffect,
    status: TransferStatus,
) -> Turn<TransferEffect>
    requires { Room 7 list.old }
    ensures { Hears list.old (endpoint_pieces sight effect status.ep_id status.ep_dir) result list.new }
{
    if status.ep_id == 0 {
        let next = if status.ep_dir {
            Awaiting::Ep0Sequence
        } else {
            Awaiting::Ep0Length
        };
        return Turn {
            effect,
            awaited: ask(sight.awaited, Some(next)),
        };
    }
    if 7 < status.ep_id {
        return Turn {
            effect,
            awaited: nothing_awaited(),
        };
    }
    let index = status.ep_id as u8;
    if status.ep_dir {
        let report = Report {
            packets: 0,
            last: 0,
        };
        let endpoint = EndpointAddress {
            index,
            incoming: true,
        };
        return report_pieces(list, sight, effect, endpoint, report);
    }
    Turn {
        effect,
        awaited: Awaited {
            next: Some(Awaiting::ChainPackets),
            endpoint: index,
            ..sight.awaited
        },
    }
}
