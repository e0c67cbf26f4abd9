ghost use Rattle.std.specs.Prelude.{◌≡◌, ◌≢◌, ◌<◌, ◌≤◌, length, IfOk};
ghost use Rattle.desk_io.specs.Faults.{Rose};
ghost use Rattle.desk_io.specs.Giving.{TakesPiece, Adds};

use crate::memory::{is_listed, push_front};
use crate::{Giving, Sink};
use desk_base::NoMemory;
use std::alloc::Global;
use std::marker::Model;

/// A sink into memory, which fails where it has no room left and at the calls that it is told to fail at.
#[derive(Debug, Drop)]
pub struct MemorySink {
    bytes: Vec<u8>,
    room: usize,
    piece: usize,
    failing: Vec<u64>,
    calls: u64,
    faults: u64,
}

impl Model for MemorySink {
    ghost use Rattle.std.specs.Prelude.{◌<◌, ◌≤◌, vec_len, vec_capacity};
    ghost use Rattle.desk_io.specs.MemorySink.{Store, HasRoom};

    ghost Value = { Store };

    ghost view = { λ s. record {
      held = s.bytes.items;
      room = s.room;
      piece = s.piece;
      failing = s.failing.items;
      calls = s.calls;
      faults = s.faults;
    } };

    ghost invariant = { λ s. HasRoom (vec_len s.bytes) s.room (vec_capacity s.bytes) s.piece };
}

impl MemorySink {
    ghost use Rattle.desk_io.specs.MemorySink.{new_store};

    /// A sink with room for so many bytes, which takes `piece` of them at a call, at most.
    /// It fails at the calls whose numbers, from 1, are in `failing`.
    pub fn new(
        alloc: Global,
        room: usize,
        piece: usize,
        failing: Vec<u64>,
    ) -> Result<MemorySink, NoMemory>
        requires { 0 < piece }
        ensures { IfOk result (λ sink. sink ≡ new_store room piece failing.items) }
    {
        Ok(MemorySink {
            bytes: Vec::with_capacity(alloc, room)?,
            room,
            piece,
            failing,
            calls: 0,
            faults: 0,
        })
    }

    /// The bytes that it holds.
    pub fn bytes(&self) -> &[u8]
        ensures { result.now ≡ self.now.held }
    {
        &self.bytes
    }
}

impl Sink for MemorySink {
    ghost use Rattle.std.specs.Prelude.{Some};
    ghost use Rattle.desk_io.specs.MemorySink.{write_answer, after_write};

    ghost held = { λ s. Some s.held };

    ghost faults = { λ s. s.faults };

    fn write(&mut self, from: &[u8]) -> Giving
        ensures piece { TakesPiece result (length from.now) }
        ensures adds { Adds (Some self.old.held) (Some self.new.held) result from.now }
        ensures faults_grow { self.old.faults ≤ self.new.faults }
        ensures cause { result ≡ Giving.Failed → Rose self.old.faults self.new.faults }
        ensures no_fault { result ≢ Giving.Failed → self.new.faults ≡ self.old.faults }

        ensures answer { result ≡ write_answer self.old (length from.now) }
        ensures after { self.new ≡ after_write self.old result from.now }
    {
        self.calls = self.calls.saturating_add(1);
        let room = self.room - self.bytes.len();
        if is_listed(&self.failing, self.calls) || (room == 0 && !from.is_empty()) {
            self.faults = self.faults.saturating_add(1);
            return Giving::Failed;
        }
        let count = self.piece.min(from.len()).min(room);
        push_front(&mut self.bytes, from, count);
        Giving::Took(count)
    }
}
