// Lines of a program's input: where one ends, its fields, and what a line of the listing asks for.
#![tactic(auto)]

mod fields;
mod number;

ghost use Rattle.std.specs.Prelude.{◌≡◌, ◌==◌};
ghost use Rattle.std.specs.List.{position};
ghost use Rattle.tool_lines.specs.Line.{line_end, direction_of, flag_of, read_line};

pub use fields::Fields;

const LINE_FEED: u8 = 10;

// How many bytes are asked at once whether one of them is the byte that is looked for.
const PART: usize = 16;

// What a line asks for: a transfer of `length` bytes from or to `address`, over an endpoint with its own buffer.
#[derive(Clone, Copy, PartialEq, Eq)]
pub struct Request {
    pub incoming: bool,
    pub endpoint: u32,
    pub max_packet_size: u32,
    pub own: u32,
    pub address: u32,
    pub length: u32,
    pub zlp: bool,
}

// The position of the first line feed from `from` on, or the end of the bytes where there is none. A position past the
// end is given back as it is.
pub fn line_end(bytes: &[u8], from: usize) -> usize
    ensures { result ≡ line_end bytes.now from }
{
    match bytes.get(from..) {
        Some(rest) => from + position(rest, LINE_FEED).unwrap_or(rest.len()),
        None => from,
    }
}

// The first position of a byte, if it is there. Parts without it are passed over whole, for speed.
#[tactic(auto, using(std::proofs::lemmas::Bool::Decides::nat_tests))]
fn position(bytes: &[u8], byte: u8) -> Option<usize>
    ensures { result ≡ position (λ b. b == byte) bytes.now }
{
    let mut rest = bytes;
    while PART <= rest.len() {
        let (part, others) = rest.split_at(PART);
        if part.contains(&byte) {
            break;
        }
        rest = others;
    }
    Some(bytes.len() - rest.len() + first(rest, byte)?)
}

// The same, byte by byte.
fn first(bytes: &[u8], byte: u8) -> Option<usize>
    ensures { result ≡ position (λ b. b == byte) bytes.now }
{
    bytes.iter().position(|b| *b == byte)
}

// What a line asks for, its line feed left out.
pub fn read_line(line: &[u8]) -> Option<Request>
    ensures { result ≡ read_line line.now }
{
    let mut fields = Fields::of(line);
    let incoming = direction(fields.next()?)?;
    let endpoint = fields.number()?;
    let max_packet_size = fields.number()?;
    let own = fields.number()?;
    let address = fields.number()?;
    let length = fields.number()?;
    let zlp = flag(fields.number()?)?;
    if !fields.is_empty() {
        return None;
    }
    Some(Request {
        incoming,
        endpoint,
        max_packet_size,
        own,
        address,
        length,
        zlp,
    })
}

// Whether a word is `in`, of the two directions.
fn direction(word: &[u8]) -> Option<bool>
    ensures { result ≡ direction_of word.now }
{
    match word {
        b"in" => Some(true),
        b"out" => Some(false),
        _ => None,
    }
}

fn flag(n: u32) -> Option<bool>
    ensures { result ≡ flag_of n }
{
    match n {
        0 => Some(false),
        1 => Some(true),
        _ => None,
    }
}
