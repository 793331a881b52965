// Readings of an interrupt.
ghost use Rattle.std.specs.Prelude.{◌≡◌};
ghost use Rattle.state.specs.Awaiting.{awaiting_number, awaitingb, chain_readingb};
ghost use Rattle.state.specs.Numbers.{reading_in_range};

use super::{Awaiting, EP0_SIZE, Reading};

// Whether the numbers of a reading lie in their ranges.
pub fn reading_in_range(reading: Reading) -> bool
    ensures { result ≡ reading_in_range reading }
{
    match reading {
        Reading::LinkFlags(_) => true,
        Reading::LinkStatus(_) => true,
        Reading::PortCapability(_) => true,
        Reading::MessageWord(_) => true,
        Reading::TransferStatus(status) => status.ep_id <= 15,
        Reading::SetupBytes(_) => true,
        Reading::Ep0Length(n) => n <= EP0_SIZE,
        Reading::Ep0Sequence(n) => n <= 31,
        Reading::ChainPackets(n) => n <= 255,
        Reading::LastLength(n) => n <= 65535,
    }
}

// The place of an awaited reading in an interrupt's sequence; 0 where none is.
pub fn awaiting_number(next: Option<Awaiting>) -> u32
    ensures { result ≡ awaiting_number next }
{
    match next {
        None => 0,
        Some(awaited) => awaited as u32,
    }
}

pub fn is_awaiting(next: Option<Awaiting>) -> bool
    ensures { result ≡ awaitingb next }
{
    next.is_some()
}

// Whether a reading of a data endpoint's chain is awaited.
pub fn is_chain_reading(next: Option<Awaiting>) -> bool
    ensures { result ≡ chain_readingb next }
{
    matches!(next, Some(Awaiting::ChainPackets | Awaiting::LastLength))
}
