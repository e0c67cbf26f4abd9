ghost use Rattle.std.specs.Prelude.{◌≡◌, ◌≢◌, ◌≤◌, None, length};
ghost use Rattle.desk_io.specs.Faults.{Rose};
ghost use Rattle.desk_io.specs.Taking.{TakesPiece, Moves, faults_after};

use crate::{Errors, Source, Taking};
use std::io::Read;
use std::marker::Model;

/// A source over a reader, which tells nothing of content. Its faults are the reader's errors.
#[derive(Drop)]
pub struct ReaderSource<R> {
    reader: R,
    errors: Errors,
}

impl<R> Model for ReaderSource<R> {
    ghost use Rattle.desk_io.specs.ReaderSource.{Reading};

    ghost Value = { Reading R };

    ghost view = { λ s. record { reader = s.reader; errors = s.errors } };
}

impl<R: Read> ReaderSource<R> {
    /// A source that gives what the reader gives.
    pub fn new(reader: R) -> ReaderSource<R>
        ensures { result ≡ record { reader = reader; errors = 0 } }
    {
        ReaderSource {
            reader,
            errors: Errors::new(),
        }
    }
}

impl<R: Read> Source for ReaderSource<R> {
    ghost left = { λ _. None };

    ghost faults = { λ s. s.errors };

    fn read(&mut self, into: &mut [u8]) -> Taking
        ensures piece { TakesPiece result (length into.new) }
        ensures moves { Moves None None result into.new }
        ensures faults_grow { self.old.errors ≤ self.new.errors }
        ensures cause { result ≡ Taking.Failed → Rose self.old.errors self.new.errors }
        ensures no_fault { result ≢ Taking.Failed → self.new.errors ≡ self.old.errors }

        ensures count { self.new.errors ≡ faults_after result self.old.errors }

        // A reader that tells its bytes gives them as any source does.
        ensures bytes { Moves (R.remaining self.old.reader) (R.remaining self.new.reader)
            result into.new }
    {
        match self.errors.read(&mut self.reader, into) {
            Ok(0) if !into.is_empty() => Taking::End,
            Ok(count) => Taking::Got(count),
            Err(_) => Taking::Failed,
        }
    }
}
