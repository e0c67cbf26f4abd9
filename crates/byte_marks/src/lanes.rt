//! Which of sixteen bytes are a mark, as the bits of a number.
ghost use Rattle.std.specs.Prelude.{◌≡◌, ◌+◌, ◌==◌, ◌<◌, ◌≤◌, length, map, take, drop};
ghost use Rattle.byte_marks.specs.Marks.{mask_of};

use std::simd::prelude::*;

/// How many bytes are looked at together.
pub(crate) const LANES: usize = 16;

// Bit k says whether the byte k behind the index is the mark, of sixteen.
fn lanes(text: &[u8], at: usize, mark: u8) -> u64
    requires { at + LANES ≤ length text.now }
    ensures { result ≡ mask_of mark (take LANES (drop at text.now)) }
{
    u8x16::from_slice(&text[at..])
        .simd_eq(u8x16::splat(mark))
        .to_bitmask()
}

/// Bit k says whether the byte k behind the index is the mark, of sixteen, or of all that there are behind it. The last sixteen bytes
/// are looked at once more where fewer are left.
pub(crate) fn marks_at(text: &[u8], at: usize, mark: u8) -> u64
    requires many { LANES ≤ length text.now }
    requires within { at < length text.now }
    ensures { result ≡ mask_of mark (take LANES (drop at text.now)) }
{
    let last = text.len() - LANES;
    if at <= last {
        lanes(text, at, mark)
    } else {
        lanes(text, last, mark) >> (at - last)
    }
}
