// The readings of a script's lines (docs/REPLAY.md, "Interrupts by their readings").
#![tactic(auto)]

ghost use Rattle.std.specs.Prelude.{◌≡◌, ltb};
ghost use Rattle.tool_scripts.specs.Script.{number_at};
ghost use Rattle.tool_readings.specs.Readings.{link_flags_of, link_state_of, link_status_of, transfer_status_of, setup_of, bytesb, held_reading, reading_of};

use state::{LinkFlags, LinkState, LinkStatus, Reading, Setup, TransferStatus};
use tool_arguments::byte;
use tool_scripts::{flag, number};
use tool_words::Word;

// The reading that a word and its numbers are, if the word is one's and the numbers can be read.
pub fn reading(word: Word, line: &[u8]) -> Option<Reading>
    ensures { result ≡ reading_of word line.now }
{
    match word {
        Word::SetupBytes => {
            if !are_bytes(line) {
                return None;
            }
        }
        Word::LinkFlags
        | Word::LinkStatus
        | Word::PortCapability
        | Word::MessageWord
        | Word::TransferStatus
        | Word::Ep0Length
        | Word::Ep0Sequence
        | Word::ChainPackets
        | Word::LastLength => {}
        _ => return None,
    }
    Some(held_reading(word, line))
}

// The reading that a word and its numbers are, whatever they are: a SETUP's number that is no byte is the largest one, and
// a word that is no reading's is taken for the last length.
pub fn held_reading(word: Word, line: &[u8]) -> Reading
    ensures { result ≡ held_reading word line.now }
{
    match word {
        Word::LinkFlags => Reading::LinkFlags(link_flags(line)),
        Word::LinkStatus => Reading::LinkStatus(link_status(line)),
        Word::PortCapability => Reading::PortCapability(flag(line, 0)),
        Word::MessageWord => Reading::MessageWord(number(line, 0)),
        Word::TransferStatus => Reading::TransferStatus(transfer_status(line)),
        Word::SetupBytes => Reading::SetupBytes(setup_bytes(line)),
        Word::Ep0Length => Reading::Ep0Length(number(line, 0)),
        Word::Ep0Sequence => Reading::Ep0Sequence(number(line, 0)),
        Word::ChainPackets => Reading::ChainPackets(number(line, 0)),
        _ => Reading::LastLength(number(line, 0)),
    }
}

fn link_flags(line: &[u8]) -> LinkFlags
    ensures { result ≡ link_flags_of line.now }
{
    LinkFlags {
        link_if_tx_lmp: flag(line, 0),
        link_if_rx_lmp: flag(line, 1),
        link_if_rx_lmp_tout: flag(line, 2),
        link_if_state_chg: flag(line, 3),
        link_if_warm_rst: flag(line, 4),
        link_if_term_pres: flag(line, 5),
        link_if_rx_set_fc: flag(line, 6),
    }
}

// The numbers of docs/REPLAY.md; any other is a state that the driver doesn't tell apart.
fn link_state(n: u32) -> LinkState
    ensures { result ≡ link_state_of n }
{
    match n {
        1 => LinkState::RXDET,
        2 => LinkState::RECOVERY,
        3 => LinkState::DISABLED,
        4 => LinkState::U0,
        5 => LinkState::U1,
        6 => LinkState::U2,
        7 => LinkState::U3,
        8 => LinkState::HOTRST,
        _ => LinkState::OTHER,
    }
}

fn link_status(line: &[u8]) -> LinkStatus
    ensures { result ≡ link_status_of line.now }
{
    LinkStatus {
        link_state: link_state(number(line, 0)),
        link_rx_term_pres: flag(line, 1),
        link_rx_warm_rst: flag(line, 2),
    }
}

fn transfer_status(line: &[u8]) -> TransferStatus
    ensures { result ≡ transfer_status_of line.now }
{
    TransferStatus {
        udif_setup: flag(line, 0),
        udif_status: flag(line, 1),
        uif_transfer: flag(line, 2),
        ep_id: number(line, 3),
        ep_dir: flag(line, 4),
        uif_itp: flag(line, 5),
        uif_rx_ping: flag(line, 6),
        uif_fifo_txov: flag(line, 7),
        uif_fifo_rxov: flag(line, 8),
    }
}

fn setup_bytes(line: &[u8]) -> Setup
    ensures { result ≡ setup_of line.now }
{
    [
        byte(line, 0),
        byte(line, 1),
        byte(line, 2),
        byte(line, 3),
        byte(line, 4),
        byte(line, 5),
        byte(line, 6),
        byte(line, 7),
    ]
}

fn is_byte(line: &[u8], k: usize) -> bool
    ensures { result ≡ ltb (number_at line.now k) 256 }
{
    number(line, k) < 256
}

// Whether a line's first eight numbers are bytes.
pub fn are_bytes(line: &[u8]) -> bool
    ensures { result ≡ bytesb line.now }
{
    is_byte(line, 0)
        && is_byte(line, 1)
        && is_byte(line, 2)
        && is_byte(line, 3)
        && is_byte(line, 4)
        && is_byte(line, 5)
        && is_byte(line, 6)
        && is_byte(line, 7)
}
