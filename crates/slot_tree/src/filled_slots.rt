ghost use Rattle.std.specs.Prelude.{◌≡◌, ◌≢◌, ℕ, ◌<◌, ◌≤◌, false, nat_lt};
ghost use Rattle.slot_tree.specs.Words.{has_bit, bits_before, FindsBit};
ghost use Rattle.slot_tree.specs.declared.limits.TheConstants.{SLOT_LIMIT};

use crate::SLOT_LIMIT;
use crate::word::{bit_as, first_bits};

// How many words of 64 bits there are: a bit for each of 1,024 slots.
const WORDS: usize = 16;

/// Which slots are filled, as bits: the bit of a slot is set exactly where it is filled.
#[derive(Clone, Copy)]
pub(crate) struct FilledSlots {
    words: [u64; WORDS],
}

impl FilledSlots {
    /// No slot is.
    pub fn none() -> FilledSlots
        ensures { (i : ℕ) → has_bit result.words i ≡ false }
    {
        FilledSlots { words: [0; WORDS] }
    }

    /// A slot is filled from now on, or is empty.
    pub fn mark(&mut self, slot: usize, filled: bool)
        requires { slot < SLOT_LIMIT }
        ensures this { has_bit self.new.words slot ≡ filled }
        ensures others { (i : ℕ) → i ≢ slot → has_bit self.new.words i ≡ has_bit self.old.words i }
    {
        let word = self.words[slot / 64];
        let bit = 1 << (slot % 64);
        self.words[slot / 64] = if filled { word | bit } else { word & !bit };
    }

    /// So many slots at the front are filled from now on, and no others.
    pub fn mark_front(&mut self, many: usize)
        requires { many ≤ SLOT_LIMIT }
        ensures { (i : ℕ) → has_bit self.new.words i ≡ nat_lt i many }
    {
        for w in 0..WORDS {
            self.words[w] = first_bits(many.saturating_sub(64 * w));
        }
    }

    /// How many slots before this one are filled.
    pub fn count_before(&self, slot: u32) -> u32
        ensures { result ≡ bits_before self.now.words slot }
    {
        let slot = slot.min(SLOT_LIMIT) as usize;
        let mut before = 0;
        for w in 0..slot / 64 {
            before += self.words[w].count_ones();
        }
        match self.words.get(slot / 64) {
            Some(word) => before + (word & first_bits(slot % 64)).count_ones(),
            None => before,
        }
    }

    /// The slot that is filled as this number from the front, from 1; `None` exactly where there is none.
    pub fn nth(&self, position: u32) -> Option<u32>
        ensures { FindsBit self.now.words position result }
    {
        let mut left = position.checked_sub(1)?;
        for w in 0..WORDS {
            let word = self.words[w];
            let here = word.count_ones();
            if left < here {
                return Some(64 * w as u32 + bit_as(word, left));
            }
            left -= here;
        }
        None
    }
}
