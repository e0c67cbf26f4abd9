ghost use Rattle.std.specs.Prelude.{IfOk, IfErr, IsErrOf, vec_len, ◌≡◌, ◌≢◌, ◌↔◌, ◌≤◌, None, length, if◌then◌else◌, IsTrue, IsOk, IsOkUnless};
ghost use Rattle.std.specs.Bool.{OnTrue, OnFalse};
ghost use Rattle.std.specs.Fs.{file_type, IsFile};
ghost use Rattle.std.specs.Io.KnownBytes.{Appends, Keeps};
ghost use Rattle.desk_io.specs.Faults.{Rose, one_more};
ghost use Rattle.desk_io.specs.Input.{TookAll, TookMore};
ghost use Rattle.desk_io.specs.Taking.{TakesPiece, Moves};
ghost use Rattle.journal_device.specs.Device.{faults_after};
ghost use Rattle.journal_device.specs.JournalFile.{CutsTo};

use crate::{Device, Found, NotOpened, SystemFile};
use desk_io::{InputFault, Source, Taking, take_all};
use std::alloc::Global;
use std::fs::{File, Files, Metadata, OpenOptions};
use std::marker::Model;

/// A journal's file, which this run alone has open: it has the lock until the value is dropped. What is there is read first, as from any
/// source; then lines are appended. Its faults are the errors of the system, and after the first of them nothing is told as kept: of
/// bytes that the system lost then it need not tell again.
#[derive(Drop)]
pub struct JournalFile<F: SystemFile> {
    file: F,
    faults: u64,
}

impl<F: SystemFile> Model for JournalFile<F> {
    ghost use Rattle.journal_device.specs.JournalFile.{Opened};

    ghost Value = { Opened F };

    ghost view = { λ s. record { file = s.file; faults = s.faults } };
}

impl JournalFile<File> {
    /// Opens the file of this name to read it and to append to it, makes it where there is none, and takes its lock at once. What is
    /// no file is refused, as is a file that another run has open.
    pub fn open<R: Files<File = File>>(
        files: &R,
        name: &str,
    ) -> Result<JournalFile<File>, NotOpened>
        ensures { IfOk result (λ journal. journal.faults ≡ 0) }
    {
        let file = OpenOptions::new()
            .read(true)
            .append(true)
            .create(true)
            .open(files, name)?;
        JournalFile::over(file)
    }
}

impl<F: SystemFile> JournalFile<F> {
    /// A journal's file over an open one, whose lock it takes at once.
    pub fn over(file: F) -> Result<JournalFile<F>, NotOpened>
        ensures opened { IfOk result (λ journal. journal ≡ record { file = file; faults = 0 }) }
        ensures locked { IfOk result (λ journal. IsTrue (F.is_locked journal.file)) }
    {
        want_a_file(&file.metadata()?)?;
        file.take_lock()?;
        Ok(JournalFile { file, faults: 0 })
    }

    /// Cuts the file to its first `len` bytes, and has that kept. A file that has fewer is left as it is, and that is a fault too.
    pub fn cut(&mut self, len: u64) -> bool
        ensures count { self.new.faults ≡ faults_after result self.old.faults }
        ensures cause { OnFalse result (Rose self.old.faults self.new.faults) }
        ensures sound { OnTrue result (self.old.faults ≡ 0) }

        // A file that tells its bytes is cut to just so many, and these are kept.
        ensures bytes { OnTrue result (CutsTo (F.contents self.old.file) (F.contents self.new.file) len) }
        ensures synced { OnTrue result (IsTrue (F.is_synced self.new.file)) }
    {
        let done = self.faults == 0 && self.file.cut_to(len).is_ok();
        self.count(done)
    }

    // Counts a fault where the call was not done.
    fn count(&mut self, done: bool) -> bool
        ensures same { result ≡ done }
        ensures after { self.new ≡ record self.old { faults = faults_after done self.old.faults } }
        ensures faults_grow { self.old.faults ≤ self.new.faults }
    {
        if !done {
            self.faults = self.faults.saturating_add(1);
        }
        done
    }
}

impl<F: SystemFile> Source for JournalFile<F> {
    ghost left = { λ s. F.remaining s.file };

    ghost faults = { λ s. s.faults };

    fn read(&mut self, into: &mut [u8]) -> Taking {
        match self.file.read(into) {
            Ok(0) if !into.is_empty() => Taking::End,
            Ok(count) => Taking::Got(count),
            Err(_) => {
                self.count(false);
                Taking::Failed
            }
        }
    }
}

impl<F: SystemFile> Device for JournalFile<F> {
    ghost written = { λ _. None };

    ghost kept = { λ _. None };

    ghost faults = { λ s. s.faults };

    ghost begins = { λ _. tt };

    fn append(&mut self, bytes: &[u8]) -> bool
        ensures count { self.new.faults ≡ faults_after result self.old.faults }
        ensures faults_grow { self.old.faults ≤ self.new.faults }
        ensures cause { OnFalse result (Rose self.old.faults self.new.faults) }

        // A file that tells its bytes takes them all.
        ensures bytes { OnTrue result (Appends (F.contents self.old.file) (F.contents self.new.file) bytes.now) }
    {
        let done = self.file.write_all(bytes).is_ok();
        self.count(done)
    }

    fn sync(&mut self) -> bool
        ensures count { self.new.faults ≡ faults_after result self.old.faults }
        ensures faults_grow { self.old.faults ≤ self.new.faults }
        ensures cause { OnFalse result (Rose self.old.faults self.new.faults) }
        ensures sound { OnTrue result (self.old.faults ≡ 0) }

        // The file's bytes are kept, and stay as they were.
        ensures synced { OnTrue result (IsTrue (F.is_synced self.new.file)) }
        ensures bytes { Keeps (F.contents self.old.file) (F.contents self.new.file) }
    {
        let done = self.faults == 0 && self.file.sync().is_ok();
        self.count(done)
    }
}

impl<F: SystemFile> Found for JournalFile<F> {
    ghost use Rattle.std.specs.Prelude.{None};

    ghost there = { λ _. None };

    fn read_all(&mut self, alloc: Global, limit: usize) -> Result<Vec<u8>, InputFault>
        ensures bounded { IfOk result (λ text. vec_len text ≤ limit) }
        ensures read_fault { IsErrOf result InputFault.ReadFault → Rose self.old.faults self.new.faults }
        ensures no_fault { ¬ IsErrOf result InputFault.ReadFault → self.new.faults ≡ self.old.faults }
        ensures faults_grow { self.old.faults ≤ self.new.faults }

        // A file that tells its bytes is read to its end.
        ensures all { IfOk result (λ text. TookAll (F.remaining self.old.file) (F.remaining self.new.file) text.items) }
        ensures too_long { IsErrOf result InputFault.TooLong
            → TookMore (F.remaining self.old.file) (F.remaining self.new.file) limit }
    {
        take_all(alloc, self, limit)
    }

    fn go_on(self, len: u64) -> Result<JournalFile<F>, JournalFile<F>>
        ensures no_fault { IfOk result (λ journal. journal.faults ≡ self.faults) }
        ensures cause { IfErr result (λ journal. Rose self.faults journal.faults) }

        // A file that tells its bytes is cut to just so many, and these are kept.
        ensures bytes { IfOk result (λ journal. CutsTo (F.contents self.file) (F.contents journal.file) len) }
        ensures synced { IfOk result (λ journal. IsTrue (F.is_synced journal.file)) }
    {
        let mut journal = self;
        if journal.cut(len) {
            return Ok(journal);
        }
        Err(journal)
    }
}

// Refuses what is no file.
fn want_a_file(found: &Metadata) -> Result<(), NotOpened>
    ensures file { IsOk result ↔ IsFile (file_type found.now) }
    ensures only { IsOkUnless result NotOpened.NotAFile }
{
    if found.is_file() {
        return Ok(());
    }
    Err(NotOpened::NotAFile)
}
