// The part of whichever of two lent slices a transfer uses, and the copies between them (reference: `chunks`, `rest` and
// the copies of `Buffer` in endpoint.rs). Nothing is asked of the arguments: a part ends where its slice does.
#![tactic(auto)]

ghost use Rattle.std.specs.Prelude.{◌≡◌, ◌-◌, min as least, length};
ghost use Rattle.endpoint_parts.specs.Parts.{part, piece_of, put};

use base::copies::copy;

// At most `len` bytes from `from` on.
pub fn part<'a>(bytes: &'a [u8], from: usize, len: usize) -> &'a [u8]
    ensures { result.now ≡ part bytes.now from len }
{
    let rest = &bytes[from.min(bytes.len())..];
    &rest[..len.min(rest.len())]
}

// What a transfer uses: of the caller's bytes the part from `at` on, or the start of the endpoint's own buffer.
pub fn piece<'a>(bytes: &'a [u8], own: &'a [u8], direct: bool, at: usize, len: usize) -> &'a [u8]
    ensures { result.now ≡ piece_of direct bytes.now own.now at len }
{
    if direct {
        part(bytes, at, len)
    } else {
        part(own, 0, len)
    }
}

// The part of `source` is stored in `target` from `at` on, as far as `target` goes.
pub fn copy_part(source: &[u8], from: usize, len: usize, target: &mut [u8], at: usize)
    ensures { target.new ≡ put target.old at (part source.now from (least len (length target.old - at))) }
{
    let start = at.min(target.len());
    copy(part(source, from, len), &mut target[start..]);
}
