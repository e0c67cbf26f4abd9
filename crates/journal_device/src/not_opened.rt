ghost use Rattle.std.specs.Prelude.{◌≡◌};
ghost use Rattle.journal_device.specs.NotOpened.{Refuses, lock_refusal_of};

use std::fs::TryLockError;
use std::io::{self, ErrorKind};
use thiserror::Error;

/// Why a journal's file was not opened.
#[derive(Debug, Drop, Error)]
pub enum NotOpened {
    /// Another run has it open.
    #[error("in use")]
    InUse,
    /// The name is that of a folder, a pipe or another thing that is no file.
    #[error("not a file")]
    NotAFile,
    /// The system gave an error.
    #[error("{0}")]
    Fault(io::Error),
}

impl From<io::Error> for NotOpened {
    ghost from_gives = { λ fault refusal. Refuses fault refusal };

    fn from(fault: io::Error) -> NotOpened {
        match fault.kind() {
            ErrorKind::IsADirectory => NotOpened::NotAFile,
            _ => NotOpened::Fault(fault),
        }
    }
}

impl From<TryLockError> for NotOpened {
    ghost from_gives = { λ fault refusal. refusal ≡ lock_refusal_of fault };

    fn from(fault: TryLockError) -> NotOpened {
        match fault {
            TryLockError::WouldBlock => NotOpened::InUse,
            TryLockError::Error(fault) => NotOpened::Fault(fault),
        }
    }
}
