ghost use Rattle.std.specs.Prelude.{◌≡◌, ◌≢◌, ◌<◌, ◌≤◌, length};
ghost use Rattle.desk_io.specs.Faults.{Rose};
ghost use Rattle.desk_io.specs.Taking.{TakesPiece, Moves};

use crate::memory::{copy_front, is_listed};
use crate::{Source, Taking};
use std::marker::Model;

/// A source over bytes in memory, which fails at the calls that it is told to fail at.
#[derive(Debug, Drop)]
pub struct MemorySource {
    bytes: Vec<u8>,
    at: usize,
    piece: usize,
    failing: Vec<u64>,
    calls: u64,
    faults: u64,
}

impl Model for MemorySource {
    ghost use Rattle.std.specs.Prelude.{◌<◌, ◌≤◌, drop, vec_len};
    ghost use Rattle.desk_io.specs.MemorySource.{Supply};

    ghost Value = { Supply };

    ghost view = { λ s. record {
      left = drop s.at s.bytes.items;
      piece = s.piece;
      failing = s.failing.items;
      calls = s.calls;
      faults = s.faults;
    } };

    ghost invariant = { λ s. (s.at ≤ vec_len s.bytes) × (0 < s.piece) };
}

impl MemorySource {
    ghost use Rattle.desk_io.specs.MemorySource.{new_supply};

    /// A source of these bytes, which gives `piece` of them at a call, at most.
    /// It fails at the calls whose numbers, from 1, are in `failing`.
    pub fn new(bytes: Vec<u8>, piece: usize, failing: Vec<u64>) -> MemorySource
        requires { 0 < piece }
        ensures { result ≡ new_supply bytes.items piece failing.items }
    {
        MemorySource {
            bytes,
            at: 0,
            piece,
            failing,
            calls: 0,
            faults: 0,
        }
    }
}

impl Source for MemorySource {
    ghost use Rattle.std.specs.Prelude.{Some};
    ghost use Rattle.desk_io.specs.MemorySource.{read_answer, after_read};

    ghost left = { λ s. Some s.left };

    ghost faults = { λ s. s.faults };

    fn read(&mut self, into: &mut [u8]) -> Taking
        ensures piece { TakesPiece result (length into.new) }
        ensures moves { Moves (Some self.old.left) (Some self.new.left) result into.new }
        ensures faults_grow { self.old.faults ≤ self.new.faults }
        ensures cause { result ≡ Taking.Failed → Rose self.old.faults self.new.faults }
        ensures no_fault { result ≢ Taking.Failed → self.new.faults ≡ self.old.faults }

        ensures answer { result ≡ read_answer self.old (length into.new) }
        ensures after { self.new ≡ after_read self.old result }
    {
        self.calls = self.calls.saturating_add(1);
        if is_listed(&self.failing, self.calls) {
            self.faults = self.faults.saturating_add(1);
            return Taking::Failed;
        }
        let left = self.bytes.len() - self.at;
        if left == 0 {
            return Taking::End;
        }
        let count = self.piece.min(into.len()).min(left);
        copy_front(into, &self.bytes[self.at..], count);
        self.at += count;
        Taking::Got(count)
    }
}
