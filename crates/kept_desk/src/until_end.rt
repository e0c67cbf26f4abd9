ghost use Rattle.std.specs.Prelude.{◌≡◌, ◌≢◌, ◌≤◌, ◌⊎◌, codes, true, false, IsTrue};
ghost use Rattle.std.specs.Bool.{OnTrue, OnFalse};
ghost use Rattle.desk_io.specs.Faults.{Rose};

use caller_lines::{CallerLine, Heard, LineBuf};
use std::marker::Model;

/// A line that ends with its caller's line `end`, or where it gives no more. It tells nothing of its calls.
#[derive(Drop)]
pub struct UntilEnd<L: CallerLine> {
    line: L,
    over: bool,
}

impl<L: CallerLine> Model for UntilEnd<L> {
    ghost use Rattle.kept_desk.specs.UntilEnd.{Until};

    ghost Value = { Until L };

    ghost view = { λ s. record { line = s.line; over = s.over } };
}

impl<L: CallerLine> UntilEnd<L> {
    /// A line that ends so.
    pub fn new(line: L) -> UntilEnd<L>
        ensures { result ≡ record { line = line; over = false } }
    {
        UntilEnd { line, over: false }
    }

    // Ends the line, where all that was put on it can be written.
    fn end(&mut self) -> Heard
        ensures end { (result ≡ Heard.End) ⊎ (result ≡ Heard.Failed) }
        ensures over { result ≡ Heard.End → self.new.over ≡ true }
        ensures settled { result ≡ Heard.End → L.settled self.new.line }
        ensures faults_grow { L.faults self.old.line ≤ L.faults self.new.line }
        ensures cause { result ≡ Heard.Failed → Rose (L.faults self.old.line) (L.faults self.new.line) }
        ensures no_fault { result ≢ Heard.Failed → L.faults self.new.line ≡ L.faults self.old.line }
    {
        self.over = true;
        if self.line.finish() {
            Heard::End
        } else {
            Heard::Failed
        }
    }
}

impl<L: CallerLine> CallerLine for UntilEnd<L> {
    ghost use Rattle.std.specs.Prelude.{None};

    ghost faults = { λ s. L.faults s.line };

    ghost calls = { λ _. None };

    ghost settled = { λ s. L.settled s.line };

    fn next(&mut self, into: &mut LineBuf) -> Heard
        ensures faults_grow { L.faults self.old.line ≤ L.faults self.new.line }
        ensures cause { result ≡ Heard.Failed → Rose (L.faults self.old.line) (L.faults self.new.line) }
        ensures no_fault { result ≢ Heard.Failed → L.faults self.new.line ≡ L.faults self.old.line }
        ensures settled { result ≡ Heard.End → L.settled self.new.line }

        // What is given is never the word, and behind the end the line isn't asked any more.
        ensures word { result ≡ Heard.Line → into.new.items ≢ codes "end" }
        ensures over { self.old.over ≡ true → (result ≡ Heard.End) ⊎ (result ≡ Heard.Failed) }
    {
        if self.over {
            return self.end();
        }
        match self.line.next(into) {
            Heard::Line if into.as_slice() == b"end".as_slice() => self.end(),
            heard => heard,
        }
    }

    fn put(&mut self, text: &[u8]) -> bool {
        self.line.put(text)
    }

    fn finish(&mut self) -> bool {
        self.line.finish()
    }

    fn put_count(&self) -> u32 {
        0
    }

    fn was_put(&self, _number: u32, _text: &[u8]) -> bool {
        false
    }
}
