ghost use Rattle.std.specs.Prelude.{◌≡◌, ◌∷◌, ◌++◌, [], slice_range};
ghost use Rattle.caller_lines.specs.Given.{answer_of};
ghost use Rattle.caller_lines.specs.LineCalls.{Asked, PutText};

use crate::{Heard, LineBuf};
use http_server::Log;
use std::marker::Model;

// Where a text stands among the bytes of all.
#[derive(Clone, Copy, Debug)]
pub(crate) struct Part {
    pub(crate) from: usize,
    pub(crate) to: usize,
}

/// The calls of a line, in their order. Proofs alone read it: it takes no memory, and does nothing when it runs.
#[derive(Drop)]
pub(crate) struct CallLog {
    // Of each call what it gave, or the text that was put, as a part of the bytes that were there then.
    notes: Log<Log<Heard, LineBuf>, Log<Part, Vec<u8>>>,
}

impl Model for CallLog {
    ghost use Rattle.std.specs.Prelude.{List, map, slice_range};
    ghost use Rattle.caller_lines.specs.Given.{answer_of};
    ghost use Rattle.caller_lines.specs.LineCalls.{LineCall, noted};

    ghost Value = { List LineCall };

    ghost view = { λ s. map (λ note. noted
        (map (λ answer. answer_of answer.0 answer.1.items) note.0.items)
        (map (λ put. slice_range put.1.items put.0.from put.0.to) note.1.items)) s.notes.items };
}

impl CallLog {
    /// No call yet.
    pub(crate) fn new() -> CallLog
        ensures { result ≡ [] }
    {
        CallLog { notes: Log::new() }
    }

    /// Notes that the line was asked, and answered so.
    pub(crate) fn note_answer(&mut self, heard: Heard, into: &LineBuf)
        ensures { self.new ≡ self.old ++ Asked (answer_of heard into.now.items) ∷ [] }
    {
        let answer = Log::new().and(&heard, into);
        self.notes = self.notes.and(&answer, &Log::new());
    }

    /// Notes that a text was put, which is this part of the bytes.
    pub(crate) fn note_put(&mut self, bytes: &Vec<u8>, part: Part)
        ensures { self.new ≡ self.old ++ PutText (slice_range bytes.now.items part.from part.to) ∷ [] }
    {
        let put = Log::new().and(&part, bytes);
        self.notes = self.notes.and(&Log::new(), &put);
    }
}
