ghost use Rattle.std.specs.Prelude.{◌≡◌};
ghost use Rattle.command_parser.specs.declared.more_fault.MoreFault.TheVariants.{NoMemory};

use desk_base::NoMemory as WantOfMemory;
use std::alloc::{AllocError, AllocFailed};
use thiserror::Error;

/// Why records are no commands that a day file can have, or a journal go on with.
#[derive(Clone, Copy, Debug, PartialEq, Eq, Error)]
pub enum MoreFault {
    /// There are more records than there may be.
    #[error("too many records")]
    TooMany,
    /// A record states no command.
    #[error("unreadable {record_no} {field}")]
    Unreadable {
        /// The first such record's number, from 1; a day file's opening is record 1.
        record_no: u32,
        /// The number of its first wrong field, from 1.
        field: u8,
    },
    /// Memory was wanting.
    #[error("no memory")]
    NoMemory,
}

impl From<WantOfMemory> for MoreFault {
    ghost from_gives = { λ _ e. e ≡ NoMemory };

    fn from(_fault: WantOfMemory) -> Self {
        MoreFault::NoMemory
    }
}

impl From<AllocError> for MoreFault {
    ghost from_gives = { λ _ e. e ≡ NoMemory };

    fn from(_fault: AllocError) -> Self {
        MoreFault::NoMemory
    }
}

impl<T: Drop> From<AllocFailed<T>> for MoreFault {
    ghost from_gives = { λ _ e. e ≡ NoMemory };

    fn from(_fault: AllocFailed<T>) -> Self {
        MoreFault::NoMemory
    }
}
