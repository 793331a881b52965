// The slots that a reading is about: the one that it changes, and those that are counted for the window.
#![tactic(auto)]

ghost use Rattle.std.specs.Prelude.{◌≡◌, ◌≤◌, ◌<◌};
ghost use Rattle.interrupt_transfer.specs.Pieces.{status_slot};
ghost use Rattle.interrupt_hear.specs.Hear.{slots_heard, heard_slot};

use state::{Awaited, Awaiting, EndpointAddress, Reading, TransferStatus};
use state_slots::slot_place;

// How many slots are counted for the window, which only the end of an OUT chain asks for.
pub fn slots_heard(awaited: Awaited) -> usize
    ensures few { result ≤ 14 }
    ensures value { result ≡ slots_heard awaited.next }
{
    match awaited.next {
        Some(Awaiting::LastLength) => 14,
        _ => 0,
    }
}

fn status_slot(status: TransferStatus) -> usize
    ensures small { result < 16 }
    ensures value { result ≡ status_slot status }
{
    if status.udif_status {
        return 1;
    }
    2 * (status.ep_id % 8) as usize + 1
}

// The slot that a reading is about. Those that are about none leave slot 1 as it is.
pub fn slot_heard(awaited: Awaited, reading: Reading) -> usize
    ensures small { result < 16 }
    ensures value { result ≡ heard_slot awaited.endpoint reading }
{
    match reading {
        Reading::TransferStatus(status) => status_slot(status),
        Reading::Ep0Length(_) => 0,
        Reading::LastLength(_) => slot_place(EndpointAddress {
            index: awaited.endpoint,
            incoming: false,
        }),
        _ => 1,
    }
}
