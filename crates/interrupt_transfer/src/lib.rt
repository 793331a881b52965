// What readings of the transfers change, and the end of a chain by its slot (reference: `transfer_irq` and `data_irq` of
// device.rs).
#![tactic(auto)]

ghost use Rattle.std.specs.Prelude.{◌≡◌};
ghost use Rattle.ops.specs.Lists.{Room};
ghost use Rattle.interrupt_asks.specs.Turns.{Hears};
ghost use Rattle.interrupt_transfer.specs.Pieces.{completed_pieces, report_pieces};

use interrupt_asks::{Sight, Turn};
use ops::OpList;
use regs_endpoint::chain_ack;
use state::fresh::nothing_awaited;
use state::{EndpointAddress, Setup, Slot};
use state_slots::completing::complete;
use transfer_chain::Report;
use transfer_step::report_slot;

// What a reading changes beside the registers: its slot, the slots to be woken, a SETUP that has come, the address that waits,
// and the sequence of the last IN packet.
#[derive(Clone, Copy)]
pub struct TransferEffect {
    pub slot: Slot,
    pub wake: u16,
    pub setup: Option<Setup>,
    pub address: Option<u8>,
    pub tx_seq: u8,
}

// The transfer of slot i is done, if it is busy.
pub fn complete_pieces(i: usize, effect: TransferEffect) -> TransferEffect
    ensures { result ≡ completed_pieces i effect }
{
    let done = complete(i, effect.slot, effect.wake);
    TransferEffect {
        slot: done.slot,
        wake: done.wake,
        ..effect
    }
}

// The end of a chain: its flag is acknowledged, then the transfer goes on or is done.
pub fn report_pieces(
    list: &mut OpList<'_>,
    sight: Sight,
    effect: TransferEffect,
    endpoint: EndpointAddress,
    report: Report,
) -> Turn<TransferEffect>
    requires { Room 7 list.old }
    ensures { Hears list.old (report_pieces sight effect endpoint.index endpoint.incoming report.packets report.last) result list.new }
{
    chain_ack(list, endpoint.index as u32, endpoint.incoming);
    let followed = report_slot(
        list,
        sight.limit,
        sight.window,
        endpoint,
        sight.place,
        effect.wake,
        effect.slot,
        report,
    );
    Turn {
        effect: TransferEffect {
            slot: followed.slot,
            wake: followed.wake,
            ..effect
        },
        awaited: nothing_awaited(),
    }
}
