ghost use Rattle.std.specs.Prelude.{Bool, true, IsTrue, OnOk};
ghost use Rattle.std.specs.Io.KnownBytes.{Keeps};
ghost use Rattle.journal_device.specs.JournalFile.{CutsTo};

use std::fs::{File, OpenFile, TryLockError};
use std::io::{self, ErrorKind, Read, Write};

/// An open file, as a journal's file asks it: it is appended to wherever it was read.
pub trait SystemFile: Read + Write + OpenFile + Drop {
    /// Whether the lock of the file is this run's.
    ghost is_locked: { Self → Bool };

    /// Whether all the bytes that it holds are kept.
    ghost is_synced: { Self → Bool };

    /// Takes the lock, or says that another run has it.
    fn take_lock(&self) -> Result<(), TryLockError>
        ensures { OnOk result (IsTrue (is_locked self.now)) };

    /// Has all the bytes that it holds kept.
    fn sync(&mut self) -> io::Result<()>
        ensures synced { OnOk result (IsTrue (is_synced self.new)) }
        ensures same { Keeps (Self.contents self.old) (Self.contents self.new) };

    /// Cuts the file to its first `len` bytes, and has them kept. A file that has fewer is left as it is, by an error.
    fn cut_to(&mut self, len: u64) -> io::Result<()>
        ensures cut { OnOk result (CutsTo (Self.contents self.old) (Self.contents self.new) len) }
        ensures synced { OnOk result (IsTrue (is_synced self.new)) };
}

// The system's word is taken for all that it answers.
impl SystemFile for File {
    ghost is_locked = { λ _. true };

    ghost is_synced = { λ _. true };

    fn take_lock(&self) -> Result<(), TryLockError> {
        self.try_lock()
    }

    fn sync(&mut self) -> io::Result<()> {
        self.sync_data()
    }

    fn cut_to(&mut self, len: u64) -> io::Result<()> {
        cut_open_file(self, len)
    }
}

// Cuts an open file that has as many bytes, and waits until that is kept.
pub(crate) fn cut_open_file<F: OpenFile>(file: &F, len: u64) -> io::Result<()> {
    if file.metadata()?.len() < len {
        return Err(ErrorKind::InvalidInput.into());
    }
    file.set_len(len)?;
    file.sync_all()
}
