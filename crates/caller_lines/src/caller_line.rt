ghost use Rattle.std.specs.Prelude.{◌≡◌, ◌≢◌, ◌↔◌, ℕ, ◌≤◌, List, IsTrue};
ghost use Rattle.std.specs.Bool.{OnTrue, OnFalse};
ghost use Rattle.std.specs.declared.option.Option.{Option};
ghost use Rattle.desk_io.specs.Faults.{Rose};
ghost use Rattle.caller_lines.specs.Given.{answer_of};
ghost use Rattle.caller_lines.specs.LineCalls.{LineCall, Asked, PutText};
ghost use Rattle.caller_lines.specs.Told.{with_last, told_count, WasPut};

use crate::{Heard, LineBuf};

/// A caller's line: it gives the caller's lines one after another, and takes the texts that are put on it.
/// Any call may fail, and the next may still succeed.
pub trait CallerLine: Drop {
    /// How many faults it has had. The count starts at 0 and stops at 2^64 - 1.
    ghost faults: { Self → ℕ };

    /// Its calls in their order, where the line tells them: what `next` answered, and the texts that were put.
    ghost calls: { Self → Option (List LineCall) };

    /// Nothing that was put on it waits to be written: where no call had a fault, all of it is written.
    ghost settled: { Self → Type 0 };

    /// Gives the caller's next line, without its line feed, if it has 512 bytes at most.
    fn next(&mut self, into: &mut LineBuf) -> Heard
        ensures asked { calls self.new ≡ with_last (calls self.old) (Asked (answer_of result into.new.items)) }
        ensures faults_grow { faults self.old ≤ faults self.new }
        ensures cause { result ≡ Heard.Failed → Rose (faults self.old) (faults self.new) }
        ensures no_fault { result ≢ Heard.Failed → faults self.new ≡ faults self.old }
        ensures settled { result ≡ Heard.End → settled self.new };

    /// Puts a text on the line, and says whether it was taken. Whoever puts the last one calls `finish` behind it.
    fn put(&mut self, text: &[u8]) -> bool
        ensures puts { OnTrue result (calls self.new ≡ with_last (calls self.old) (PutText text.now)) }
        ensures no_put { OnFalse result (calls self.new ≡ calls self.old) }
        ensures faults_grow { faults self.old ≤ faults self.new }
        ensures cause { OnFalse result (Rose (faults self.old) (faults self.new)) }
        ensures no_fault { OnTrue result (faults self.new ≡ faults self.old) };

    /// Writes what was put and still waits to be written, and says whether all of it was. A line may let texts wait while it holds more
    /// lines of its caller, but none while it waits for its caller.
    fn finish(&mut self) -> bool
        ensures settled { OnTrue result (settled self.new) }
        ensures told { calls self.new ≡ calls self.old }
        ensures faults_grow { faults self.old ≤ faults self.new }
        ensures cause { OnFalse result (Rose (faults self.old) (faults self.new)) }
        ensures no_fault { OnTrue result (faults self.new ≡ faults self.old) };

    /// How many texts were put, 0 where the line doesn't tell them.
    fn put_count(&self) -> u32
        ensures { result ≡ told_count (calls self.now) };

    /// Whether the put of this number, from 1, was this text; false where the line doesn't tell its puts.
    fn was_put(&self, number: u32, text: &[u8]) -> bool
        ensures { IsTrue result ↔ WasPut (calls self.now) number text.now };
}
