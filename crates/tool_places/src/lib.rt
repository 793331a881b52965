// Lent bytes by their places: where one stands first, and text put between what stands there.
#![tactic(auto)]

ghost use Rattle.std.specs.Prelude.{◌≡◌, ◌+◌, ◌≤◌, ◌==◌, length};
ghost use Rattle.std.specs.List.{position};
ghost use Rattle.ops.specs.Stores.{Stored};
ghost use Rattle.tool_laws.specs.Search.{seek};
ghost use Rattle.tool_laws.specs.Text.{NumberStored};

// The position of the first such byte from `from` on, or the end of the bytes where there is none. A position past the end
// is given back as it is.
pub fn first(bytes: &[u8], from: usize, byte: u8) -> usize
    ensures { result ≡ seek bytes.now from byte }
{
    match bytes.get(from..) {
        Some(rest) => from + position(rest, byte).unwrap_or(rest.len()),
        None => from,
    }
}

fn position(bytes: &[u8], byte: u8) -> Option<usize>
    ensures { result ≡ position (λ b. b == byte) bytes.now }
{
    bytes.iter().position(|b| *b == byte)
}

// A number's digits, put into the text at `at`: where they end. No fewer would do, and ten always do.
pub fn put_number(text: &mut [u8], at: usize, n: u32) -> usize
    requires { at + 10 ≤ length text.old }
    ensures room { result ≤ at + 10 }
    ensures digits { NumberStored text.old at n result text.new }
{
    let mut digits = [0u8; 20];
    let count = io::decimal(n as u64, &mut digits);
    put(text, at, &digits[..count])
}

// Bytes, likewise.
pub fn put(text: &mut [u8], at: usize, bytes: &[u8]) -> usize
    requires { at + length bytes.now ≤ length text.old }
    ensures { Stored text.old at bytes.now result text.new }
{
    let n = base::copies::copy(bytes, &mut text[at..]);
    at + n
}
