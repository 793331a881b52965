// Which reading of the transfers is heard, by what is awaited.
#![tactic(auto)]

ghost use Rattle.std.specs.Prelude.{◌<◌};
ghost use Rattle.ops.specs.Lists.{Room};
ghost use Rattle.state.specs.Awaiting.{awaiting_number};
ghost use Rattle.interrupt_asks.specs.Turns.{Takes};
ghost use Rattle.interrupt_readings.specs.Matched.{reading_own};
ghost use Rattle.interrupt_followers.specs.Pieces.{pieces_heard};

use interrupt_asks::{Sight, Turn};
use interrupt_chains::{on_chain_packets, on_last_length};
use interrupt_followers::{on_ep0_length, on_ep0_sequence, on_setup_bytes};
use interrupt_status::on_transfer_status;
use interrupt_transfer::TransferEffect;
use ops::OpList;
use state::{Awaiting, Reading, Refusal};

// A reading while one of the transfers is awaited.
pub fn hear_transfer(
    list: &mut OpList<'_>,
    sight: Sight,
    effect: TransferEffect,
    reading: Reading,
) -> Result<Turn<TransferEffect>, Refusal>
    requires room { Room 128 list.old }
    requires transfer { 6 < awaiting_number sight.awaited.next }
    ensures { Takes list.old (reading_own sight.awaited.next reading) (pieces_heard sight effect sight.awaited.next reading) result list.new }
{
    match sight.awaited.next {
        Some(Awaiting::TransferStatus) => on_transfer_status(list, sight, effect, reading),
        Some(Awaiting::SetupBytes) => on_setup_bytes(effect, reading),
        Some(Awaiting::Ep0Length) => on_ep0_length(list, sight, effect, reading),
        Some(Awaiting::Ep0Sequence) => on_ep0_sequence(list, sight, effect, reading),
        Some(Awaiting::ChainPackets) => on_chain_packets(sight, effect, reading),
        Some(Awaiting::LastLength) => on_last_length(list, sight, effect, reading),
        _ => Err(Refusal::OutOfTurn),
    }
}
