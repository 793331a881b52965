// Arithmetic on numbers of 32 bits. Nothing is asked of the arguments.
#![tactic(auto)]

ghost use Rattle.std.specs.Prelude.{◌≡◌, ◌-◌, min as least, max as greatest};
ghost use Rattle.base.specs.Ceil.{div_ceil};

pub mod copies;

pub fn min(a: u32, b: u32) -> u32
    ensures { result ≡ least a b }
{
    a.min(b)
}

pub fn max(a: u32, b: u32) -> u32
    ensures { result ≡ greatest a b }
{
    a.max(b)
}

// a - b, and 0 where b is more.
pub fn saturating_sub(a: u32, b: u32) -> u32
    ensures { result ≡ a - b }
{
    a.saturating_sub(b)
}

// n / m, rounded up; 0 where m is. One division.
pub fn div_ceil(n: u32, m: u32) -> u32
    ensures { result ≡ div_ceil n m }
{
    if n == 0 {
        return 0;
    }
    if m == 0 {
        return 0;
    }
    (n - 1) / m + 1
}
