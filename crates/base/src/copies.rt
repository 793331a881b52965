// Bytes copied, as many as both sides have.
ghost use Rattle.std.specs.Prelude.{◌≡◌, ◌++◌, min as least, length, take, drop};

// Stores the first bytes of `from` at the start of `to`: how many there are.
pub fn copy(from: &[u8], to: &mut [u8]) -> usize
    ensures count { result ≡ least (length from.now) (length to.old) }
    ensures stored { to.new ≡ take result from.now ++ drop result to.old }
{
    let count = from.len().min(to.len());
    to[..count].copy_from_slice(&from[..count]);
    count
}
