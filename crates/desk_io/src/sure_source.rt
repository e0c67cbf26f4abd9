ghost use Rattle.std.specs.Prelude.{◌≡◌, length};
ghost use Rattle.desk_io.specs.Taking.{TakesPiece, Moves, full_answer};

use crate::memory::copy_front;
use crate::{Source, Taking};
use std::marker::Model;

/// A source over bytes in memory, which never fails. It gives as many of them at a call as there is room for.
#[derive(Debug, Drop)]
pub struct SureSource {
    bytes: Vec<u8>,
    at: usize,
}

impl Model for SureSource {
    ghost use Rattle.std.specs.Prelude.{ℕ, ◌≤◌, List, drop, vec_len};

    ghost Value = { List ℕ };

    ghost view = { λ s. drop s.at s.bytes.items };

    ghost invariant = { λ s. s.at ≤ vec_len s.bytes };
}

impl SureSource {
    /// A source of these bytes.
    pub fn new(bytes: Vec<u8>) -> SureSource
        ensures { result ≡ bytes.items }
    {
        SureSource { bytes, at: 0 }
    }
}

impl Source for SureSource {
    ghost use Rattle.std.specs.Prelude.{Some};

    ghost left = { λ s. Some s };

    ghost faults = { λ _. 0 };

    fn read(&mut self, into: &mut [u8]) -> Taking
        ensures piece { TakesPiece result (length into.new) }
        ensures moves { Moves (Some self.old) (Some self.new) result into.new }
        ensures answer { result ≡ full_answer self.old (length into.new) }
    {
        let left = self.bytes.len() - self.at;
        if left == 0 {
            return Taking::End;
        }
        let count = into.len().min(left);
        copy_front(into, &self.bytes[self.at..], count);
        self.at += count;
        Taking::Got(count)
    }
}
