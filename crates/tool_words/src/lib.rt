// The words of a script of calls (docs/REPLAY.md), and what each stands for.
#![tactic(auto)]

ghost use Rattle.std.specs.Prelude.{◌≡◌, option_map};
ghost use Rattle.tool_words.specs.Rows.{first_in, named_in};
ghost use Rattle.tool_words.specs.Words.{meaning_of};

// The calls and readings that a script may ask for; a line that can't be read is unfit.
#[derive(Clone, Copy, PartialEq, Eq)]
pub enum Word {
    Unfit,
    Driver,
    Allocate,
    Start,
    On,
    Off,
    Enable,
    Stall,
    Stalled,
    Enabled,
    Raise,
    Poll,
    Reset,
    Wakeup,
    Begin,
    Take,
    Abandon,
    Report,
    Move,
    Next,
    Setup,
    DataOut,
    TakeOut,
    DataIn,
    Accept,
    AcceptAddress,
    TakeIn,
    Reject,
    Generation,
    Interrupt,
    LinkFlags,
    LinkStatus,
    PortCapability,
    MessageWord,
    TransferStatus,
    SetupBytes,
    Ep0Length,
    Ep0Sequence,
    ChainPackets,
    LastLength,
    Show,
}

// What a word stands for: a call, and how many numbers it takes at most.
#[derive(Clone, Copy, PartialEq, Eq)]
pub struct Meant {
    pub call: Word,
    pub most: usize,
}

// Each word, the call that it stands for, and how many numbers that takes at most.
const WORDS: [(&str, Word, usize); 40] = [
    ("driver", Word::Driver, 2),
    ("allocate", Word::Allocate, 10),
    ("start", Word::Start, 1),
    ("on", Word::On, 1),
    ("off", Word::Off, 0),
    ("enable", Word::Enable, 3),
    ("stall", Word::Stall, 3),
    ("stalled", Word::Stalled, 2),
    ("enabled", Word::Enabled, 2),
    ("raise", Word::Raise, 1),
    ("poll", Word::Poll, 0),
    ("reset", Word::Reset, 0),
    ("wakeup", Word::Wakeup, 0),
    ("begin", Word::Begin, 5),
    ("take", Word::Take, 2),
    ("abandon", Word::Abandon, 2),
    ("report", Word::Report, 4),
    ("move", Word::Move, 7),
    ("next", Word::Next, 8),
    ("setup", Word::Setup, 0),
    ("data_out", Word::DataOut, 3),
    ("take_out", Word::TakeOut, 4),
    ("data_in", Word::DataIn, 6),
    ("accept", Word::Accept, 1),
    ("accept_address", Word::AcceptAddress, 2),
    ("take_in", Word::TakeIn, 1),
    ("reject", Word::Reject, 1),
    ("generation", Word::Generation, 1),
    ("interrupt", Word::Interrupt, 0),
    ("link_flags", Word::LinkFlags, 7),
    ("link_status", Word::LinkStatus, 3),
    ("port_capability", Word::PortCapability, 1),
    ("message_word", Word::MessageWord, 1),
    ("transfer_status", Word::TransferStatus, 9),
    ("setup_bytes", Word::SetupBytes, 8),
    ("ep0_length", Word::Ep0Length, 1),
    ("ep0_sequence", Word::Ep0Sequence, 1),
    ("chain_packets", Word::ChainPackets, 1),
    ("last_length", Word::LastLength, 1),
    ("state", Word::Show, 0),
];

// What a word stands for; one that is not in the table, for no call.
pub fn meaning(word: &[u8]) -> Meant
    ensures { result ≡ meaning_of word.now }
{
    named(&WORDS, word)
}

// What the first row with this word says.
#[tactic(auto, unfolding(crate::specs::Rows::named_in))]
fn named(rows: &[(&str, Word, usize)], word: &[u8]) -> Meant
    ensures { result ≡ named_in word.now rows.now }
{
    match first(rows, word) {
        Some(&(_, call, most)) => Meant { call, most },
        None => Meant {
            call: Word::Unfit,
            most: 0,
        },
    }
}

fn first<'a>(rows: &'a [(&'a str, Word, usize)], word: &[u8]) -> Option<&'a (&'a str, Word, usize)>
    ensures { option_map (λ row. row.now) result ≡ first_in word.now rows.now }
{
    rows.iter().find(|(name, _, _)| word == name.as_bytes())
}
