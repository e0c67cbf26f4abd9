//! The bits of one word.
ghost use Rattle.std.specs.Prelude.{◌≡◌, ℕ, ◌+◌, ◌-◌, ◌^◌, ◌<◌, ◌≤◌, ◌%◌, min};
ghost use Rattle.std.specs.Int.{bit_at};
ghost use Rattle.std.specs.Int.RustNames.{count_ones};

/// The word of which so many bits at the front are set, or all.
pub(crate) fn first_bits(many: usize) -> u64
    ensures { result ≡ 2 ^ min many 64 - 1 }
{
    if many < 64 { (1 << many) - 1 } else { u64::MAX }
}

/// The number of the set bit before which so many others are set.
pub(crate) fn bit_as(word: u64, before: u32) -> u32
    requires { before < count_ones word }
    ensures within { result < 64 }
    ensures set { bit_at word result ≡ 1 }
    ensures before { count_ones (word % 2 ^ result) ≡ before }
{
    let mut at = 0;
    let mut left = before;
    for t in (0..6u32).rev() {
        let half = 1 << t;
        let lower = (word >> at & ((1 << half) - 1)).count_ones();
        if lower <= left {
            left -= lower;
            at += half;
        }
    }
    at
}
