// The bytes that a script's calls are lent (docs/REPLAY.md): the pattern that fills them, and the sum that is printed of
// those that were copied.
#![tactic(auto)]

ghost use Rattle.std.specs.Prelude.{◌≡◌};
ghost use Rattle.tool_patterns.specs.Patterns.{pattern_byte, filled, with_byte, sum_of};

fn pattern_byte(pattern: u32, i: usize) -> u8
    ensures { result ≡ pattern_byte pattern i }
{
    let place = 31 * (i % 256) + 17 * (i / 256 % 256);
    ((pattern as usize % 256 + place) % 256) as u8
}

pub fn fill(bytes: &mut [u8], pattern: u32)
    ensures { bytes.new ≡ filled pattern bytes.old }
{
    for (i, byte) in bytes.iter_mut().enumerate() {
        *byte = pattern_byte(pattern, i);
    }
}

fn with_byte(sum: u32, byte: u8) -> u32
    ensures { result ≡ with_byte sum byte }
{
    sum.wrapping_mul(31).wrapping_add(byte as u32)
}

pub fn sum(bytes: &[u8]) -> u32
    ensures { result ≡ sum_of bytes.now }
{
    bytes.iter().fold(0, |sum, byte| with_byte(sum, *byte))
}
