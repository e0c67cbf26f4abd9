//! Texts on their way to a writer.
ghost use Rattle.std.specs.Prelude.{◌≡◌, ◌≤◌, ◌+◌, ◌⊎◌, ◌↔◌, [], true, IsNone};
ghost use Rattle.std.specs.Bool.{OnTrue, OnFalse};
ghost use Rattle.arrayvec.specs.ArrayVec.{array_vec_len};
ghost use Rattle.desk_io.specs.Faults.{Rose};
ghost use Rattle.caller_lines.specs.FileLine.{GaveOn, Wrote};

use arrayvec::ArrayVec;
use desk_io::Errors;
use std::io::Write;

// How many bytes may wait.
const ROOM: usize = 8_192;

/// A writer, and texts that wait to be written to it together.
#[derive(Drop)]
pub(crate) struct TextsOut<W> {
    pub(crate) writer: Option<W>,
    pub(crate) waiting: ArrayVec<u8, ROOM>,
}

impl<W: Write> TextsOut<W> {
    /// A writer, for which nothing waits. None is a file that could not be opened.
    pub(crate) fn new(writer: Option<W>) -> TextsOut<W>
        ensures writer { result.writer ≡ writer }
        ensures waiting { result.waiting.items ≡ [] }
    {
        TextsOut {
            writer,
            waiting: ArrayVec::new(),
        }
    }

    // Writes a text behind what was written, and says whether it was written.
    fn write(&mut self, errors: &mut Errors, text: &[u8]) -> bool
        ensures wrote { OnTrue result (Wrote W.contents self.old.writer self.new.writer text.now) }
        ensures waiting { self.new.waiting ≡ self.old.waiting }
        ensures there { IsNone self.new.writer ↔ IsNone self.old.writer }
        ensures fault { OnFalse result (Rose errors.old errors.new ⊎ IsNone self.old.writer) }
        ensures no_error { OnTrue result (errors.new ≡ errors.old) }
        ensures errors_grow { errors.old ≤ errors.new }
    {
        match &mut self.writer {
            Some(writer) => errors.write_all(writer, text).is_ok(),
            None => false,
        }
    }

    /// Writes what waits, and says whether all of it was written.
    pub(crate) fn write_waiting(&mut self, errors: &mut Errors) -> bool
        ensures wrote { OnTrue result (Wrote W.contents self.old.writer self.new.writer self.old.waiting.items) }
        ensures none { OnTrue result (self.new.waiting.items ≡ []) }
        ensures there { IsNone self.new.writer ↔ IsNone self.old.writer }
        ensures fault { OnFalse result (Rose errors.old errors.new ⊎ IsNone self.old.writer) }
        ensures no_error { OnTrue result (errors.new ≡ errors.old) }
        ensures errors_grow { errors.old ≤ errors.new }
    {
        if self.waiting.is_empty() {
            return self.writer.is_some();
        }
        match &mut self.writer {
            Some(writer) => {
                let written = errors.write_all(writer, self.waiting.as_slice()).is_ok();
                self.waiting.clear();
                written
            }
            None => false,
        }
    }

    // Writes what waits where there is no room for so many bytes behind it, and says whether all of that was written.
    fn make_room(&mut self, errors: &mut Errors, len: usize) -> bool
        ensures gave { OnTrue result (GaveOn W.contents self.old.writer self.new.writer
            self.old.waiting.items self.new.waiting.items []) }
        ensures room { OnTrue result (array_vec_len self.new.waiting + len ≤ ROOM ⊎ self.new.waiting.items ≡ []) }
        ensures there { IsNone self.new.writer ↔ IsNone self.old.writer }
        ensures fault { OnFalse result (Rose errors.old errors.new ⊎ IsNone self.old.writer) }
        ensures no_error { OnTrue result (errors.new ≡ errors.old) }
        ensures errors_grow { errors.old ≤ errors.new }
    {
        if len <= ROOM - self.waiting.len() {
            self.writer.is_some()
        } else {
            self.write_waiting(errors)
        }
    }

    /// Lets a text wait behind others, and writes all that waits where it is to be written at once. It says whether the writer took
    /// what was written.
    pub(crate) fn put(&mut self, errors: &mut Errors, text: &[u8], at_once: bool) -> bool
        ensures gave { OnTrue result (GaveOn W.contents self.old.writer self.new.writer
            self.old.waiting.items self.new.waiting.items text.now) }
        ensures at_once { OnTrue result (at_once ≡ true → self.new.waiting.items ≡ []) }
        ensures there { IsNone self.new.writer ↔ IsNone self.old.writer }
        ensures fault { OnFalse result (Rose errors.old errors.new ⊎ IsNone self.old.writer) }
        ensures no_error { OnTrue result (errors.new ≡ errors.old) }
        ensures errors_grow { errors.old ≤ errors.new }
    {
        if !self.make_room(errors, text.len()) {
            return false;
        }
        if text.len() > ROOM {
            return self.write(errors, text);
        }
        self.waiting.try_extend_from_slice(text).unwrap();
        if at_once {
            self.write_waiting(errors)
        } else {
            true
        }
    }
}
