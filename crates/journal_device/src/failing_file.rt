ghost use Rattle.std.specs.Prelude.{true};

use crate::SystemFile;
use crate::system_file::cut_open_file;
use std::fs::{Metadata, OpenFile, TryLockError};
use std::io::{self, ErrorKind, Read, Write};

/// A call of the system that a file answers by an error.
#[derive(Clone, Copy, Debug, PartialEq, Eq)]
pub enum Call {
    None,
    Metadata,
    Lock,
    Read,
    Write,
    SetLen,
    SyncAll,
    SyncData,
}

/// A file with eight bytes and nothing left to read, which fails at one of the calls.
#[derive(Drop)]
pub struct FailingFile {
    pub failing: Call,
}

impl FailingFile {
    fn answer(&self, call: Call) -> io::Result<()> {
        if self.failing == call {
            return Err(ErrorKind::Other.into());
        }
        Ok(())
    }
}

impl Read for FailingFile {
    fn read(&mut self, _buf: &mut [u8]) -> io::Result<usize> {
        self.answer(Call::Read)?;
        Ok(0)
    }
}

impl Write for FailingFile {
    fn write(&mut self, buf: &[u8]) -> io::Result<usize> {
        self.answer(Call::Write)?;
        Ok(buf.len())
    }

    fn flush(&mut self) -> io::Result<()> {
        Ok(())
    }
}

impl OpenFile for FailingFile {
    fn metadata(&self) -> io::Result<Metadata> {
        self.answer(Call::Metadata)?;
        Ok(Metadata::of_file(8))
    }

    fn set_len(&self, _size: u64) -> io::Result<()> {
        self.answer(Call::SetLen)
    }

    fn sync_all(&self) -> io::Result<()> {
        self.answer(Call::SyncAll)
    }

    fn sync_data(&self) -> io::Result<()> {
        self.answer(Call::SyncData)
    }
}

impl SystemFile for FailingFile {
    ghost is_locked = { λ _. true };

    ghost is_synced = { λ _. true };

    fn take_lock(&self) -> Result<(), TryLockError> {
        self.answer(Call::Lock).map_err(TryLockError::Error)
    }

    fn sync(&mut self) -> io::Result<()> {
        self.sync_data()
    }

    fn cut_to(&mut self, len: u64) -> io::Result<()> {
        cut_open_file(self, len)
    }
}
