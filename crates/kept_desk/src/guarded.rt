ghost use Rattle.std.specs.Prelude.{◌≡◌, ◌≢◌, ◌≤◌, ◌⊎◌, ℕ, Some, IsNone, IfSome};
ghost use Rattle.std.specs.Bool.{OnTrue, OnFalse};
ghost use Rattle.desk_io.specs.Faults.{Rose};
ghost use Rattle.caller_lines.specs.Given.{answer_of};
ghost use Rattle.caller_lines.specs.LineCalls.{Asked, PutText};
ghost use Rattle.caller_lines.specs.Told.{with_last};
ghost use Rattle.kept_desk.specs.Ahead.{IsInTime};

use crate::Clock;
use crate::ahead::is_ahead;
use crate::ahead_text::write_ahead;
use caller_lines::{CallerLine, Heard, LineBuf};
use desk_base::NoMemory;
use serve_desk::LINES_PER_CALLER;
use std::alloc::Global;
use std::marker::Model;

// Memory was wanting for the reading of a line.
const NO_MEMORY: &[u8] = b"no memory\n";

/// A line whose caller is kept from stating minutes far ahead of a clock: a command or a crew call that is stated more than so many minutes
/// ahead of it is answered with the clock's minute, and the line behind it is asked for. Where the clock tells no minute every line is
/// given. It tells nothing of its calls.
#[derive(Drop)]
pub struct Guarded<L: CallerLine, C: Clock> {
    line: L,
    clock: C,
    ahead: u32,
    alloc: Global,
}

impl<L: CallerLine, C: Clock> Model for Guarded<L, C> {
    ghost use Rattle.kept_desk.specs.Guarded.{Watched};

    ghost Value = { Watched L C };

    ghost view = { λ s. record { line = s.line; clock = s.clock; ahead = s.ahead } };
}

impl<L: CallerLine, C: Clock> Guarded<L, C> {
    ghost use Rattle.kept_desk.specs.Guarded.{PassesOne, GivesOn};

    /// A line that is guarded so. What it reads with takes memory of this allocator.
    pub fn new(alloc: Global, line: L, clock: C, ahead: u32) -> Guarded<L, C>
        ensures { result ≡ record { line = line; clock = clock; ahead = ahead } }
    {
        Guarded {
            line,
            clock,
            ahead,
            alloc,
        }
    }

    /// The line that is guarded.
    pub fn into_line(self) -> L
        ensures { result ≡ self.line }
    {
        let Guarded {
            line,
            clock: _,
            ahead: _,
            alloc: _,
        } = self;
        line
    }

    // Asks the line once; `None` where what it gave is answered and passed over.
    fn ask(&mut self, into: &mut LineBuf) -> Option<Heard>
        ensures in_time { result ≡ Some Heard.Line → IsInTime (C.minute self.new.clock) self.old.ahead into.new.items }
        ensures asked { (result ≡ Some Heard.Line) ⊎ (result ≡ Some Heard.TooLong)
            → IfSome result (λ heard. L.calls self.new.line ≡ with_last (L.calls self.old.line) (Asked (answer_of heard into.new.items))) }
        ensures passed { IsNone result → PassesOne (C.minute self.new.clock) self.old.ahead (L.calls self.old.line) (L.calls self.new.line) }
        ensures clock { result ≡ Some Heard.Line → Rose (C.asked self.old.clock) (C.asked self.new.clock) }
        ensures count_grows { C.asked self.old.clock ≤ C.asked self.new.clock }
        ensures same { self.new.ahead ≡ self.old.ahead }
        ensures faults_grow { L.faults self.old.line ≤ L.faults self.new.line }
        ensures cause { result ≡ Some Heard.Failed → Rose (L.faults self.old.line) (L.faults self.new.line) }
        ensures no_fault { result ≢ Some Heard.Failed → L.faults self.new.line ≡ L.faults self.old.line }
        ensures settled { result ≡ Some Heard.End → L.settled self.new.line }
    {
        let heard = self.line.next(into);
        if heard != Heard::Line {
            return Some(heard);
        }
        let Some(now) = self.clock.now() else {
            return Some(Heard::Line);
        };
        let latest = now.number() + u64::from(self.ahead);
        match is_ahead(self.alloc, into.as_slice(), latest) {
            Ok(false) => Some(Heard::Line),
            Ok(true) => self.answer(write_ahead(now).as_slice()),
            Err(NoMemory) => self.answer(NO_MEMORY),
        }
    }

    // Puts an answer on the line; `Failed` where it isn't taken.
    fn answer(&mut self, text: &[u8]) -> Option<Heard>
        ensures only { (result ≡ None) ⊎ (result ≡ Some Heard.Failed) }
        ensures puts { IsNone result → L.calls self.new.line ≡ with_last (L.calls self.old.line) (PutText text.now) }
        ensures same { self.new.ahead ≡ self.old.ahead }
        ensures clock { self.new.clock ≡ self.old.clock }
        ensures faults_grow { L.faults self.old.line ≤ L.faults self.new.line }
        ensures cause { result ≡ Some Heard.Failed → Rose (L.faults self.old.line) (L.faults self.new.line) }
        ensures no_fault { IsNone result → L.faults self.new.line ≡ L.faults self.old.line }
    {
        if self.line.put(text) {
            None
        } else {
            Some(Heard::Failed)
        }
    }

    // Ends the line, where all that was put on it can be written.
    fn end(&mut self) -> Heard
        ensures end { (result ≡ Heard.End) ⊎ (result ≡ Heard.Failed) }
        ensures settled { result ≡ Heard.End → L.settled self.new.line }
        ensures faults_grow { L.faults self.old.line ≤ L.faults self.new.line }
        ensures cause { result ≡ Heard.Failed → Rose (L.faults self.old.line) (L.faults self.new.line) }
        ensures no_fault { result ≢ Heard.Failed → L.faults self.new.line ≡ L.faults self.old.line }
    {
        if self.line.finish() {
            Heard::End
        } else {
            Heard::Failed
        }
    }
}

impl<L: CallerLine, C: Clock> CallerLine for Guarded<L, C> {
    ghost use Rattle.std.specs.Prelude.{None};
    ghost use Rattle.kept_desk.specs.Guarded.{GivesOn};

    ghost faults = { λ s. L.faults s.line };

    ghost calls = { λ _. None };

    ghost settled = { λ s. L.settled s.line };

    fn next(&mut self, into: &mut LineBuf) -> Heard
        ensures faults_grow { L.faults self.old.line ≤ L.faults self.new.line }
        ensures cause { result ≡ Heard.Failed → Rose (L.faults self.old.line) (L.faults self.new.line) }
        ensures no_fault { result ≢ Heard.Failed → L.faults self.new.line ≡ L.faults self.old.line }
        ensures settled { result ≡ Heard.End → L.settled self.new.line }

        // What is given states no minute too far ahead of what the clock, which is asked then, tells; and of the lines before it just those
        // that do were answered.
        ensures clock { result ≡ Heard.Line → Rose (C.asked self.old.clock) (C.asked self.new.clock) }
        ensures in_time { result ≡ Heard.Line → IsInTime (C.minute self.new.clock) self.old.ahead into.new.items }
        ensures given { (result ≡ Heard.Line) ⊎ (result ≡ Heard.TooLong)
            → GivesOn self.old.ahead (L.calls self.old.line) (L.calls self.new.line) (answer_of result into.new.items) }
    {
        for _ in 0..LINES_PER_CALLER {
            if let Some(heard) = self.ask(into) {
                return heard;
            }
        }
        self.end()
    }

    fn put(&mut self, text: &[u8]) -> bool {
        self.line.put(text)
    }

    fn finish(&mut self) -> bool {
        self.line.finish()
    }

    fn put_count(&self) -> u32 {
        0
    }

    fn was_put(&self, _number: u32, _text: &[u8]) -> bool {
        false
    }
}
