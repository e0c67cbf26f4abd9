ghost use Rattle.std.specs.Prelude.{◌≡◌, ◌≢◌, ◌≤◌, None, length};
ghost use Rattle.desk_io.specs.Faults.{Rose};
ghost use Rattle.desk_io.specs.Giving.{TakesPiece, Adds, faults_after};

use crate::{Errors, Giving, Sink};
use std::io::Write;
use std::marker::Model;

/// A sink over a writer, which tells nothing of content. Its faults are the writer's errors, one of which is to take nothing of a
/// piece that is not empty. It flushes nothing: std's standard output keeps no bytes back, and any other writer is to be one that
/// keeps none.
#[derive(Drop)]
pub struct WriterSink<W> {
    writer: W,
    errors: Errors,
}

impl<W> Model for WriterSink<W> {
    ghost use Rattle.desk_io.specs.WriterSink.{Writing};

    ghost Value = { Writing W };

    ghost view = { λ s. record { writer = s.writer; errors = s.errors } };
}

impl<W: Write> WriterSink<W> {
    /// A sink that gives the writer what it is given.
    pub fn new(writer: W) -> WriterSink<W>
        ensures { result ≡ record { writer = writer; errors = 0 } }
    {
        WriterSink {
            writer,
            errors: Errors::new(),
        }
    }
}

impl<W: Write> Sink for WriterSink<W> {
    ghost held = { λ _. None };

    ghost faults = { λ s. s.errors };

    fn write(&mut self, from: &[u8]) -> Giving
        ensures piece { TakesPiece result (length from.now) }
        ensures adds { Adds None None result from.now }
        ensures faults_grow { self.old.errors ≤ self.new.errors }
        ensures cause { result ≡ Giving.Failed → Rose self.old.errors self.new.errors }
        ensures no_fault { result ≢ Giving.Failed → self.new.errors ≡ self.old.errors }

        ensures count { self.new.errors ≡ faults_after result self.old.errors }

        // A writer that tells its bytes takes them as any sink does.
        ensures bytes { Adds (W.contents self.old.writer) (W.contents self.new.writer)
            result from.now }
    {
        match self.errors.write(&mut self.writer, from) {
            Ok(count) if count > 0 || from.is_empty() => Giving::Took(count),
            _ => Giving::Failed,
        }
    }
}
