ghost use Rattle.std.specs.Prelude.{◌≡◌};
ghost use Rattle.command_parser.specs.DayFile.{day_fault};
ghost use Rattle.command_parser.specs.declared.day_fault.DayFault.TheVariants.{NoMemory};

use crate::more_fault::MoreFault;
use desk_base::NoMemory as WantOfMemory;
use thiserror::Error;

/// Why bytes are no day file that can be replayed.
#[derive(Clone, Copy, Debug, PartialEq, Eq, Error)]
pub enum DayFault {
    /// There are more records than a day file may have.
    #[error("too many records")]
    TooMany,
    /// The first record is no valid opening.
    #[error("no opening")]
    NoOpening,
    /// A record after the opening states no command.
    #[error("unreadable {record_no} {field}")]
    Unreadable {
        /// The first such record's number, from 1; the opening is record 1.
        record_no: u32,
        /// The number of its first wrong field, from 1.
        field: u8,
    },
    /// Memory was wanting.
    #[error("no memory")]
    NoMemory,
}

impl From<WantOfMemory> for DayFault {
    ghost from_gives = { λ _ e. e ≡ NoMemory };

    fn from(_fault: WantOfMemory) -> Self {
        DayFault::NoMemory
    }
}

impl From<MoreFault> for DayFault {
    ghost from_gives = { λ fault e. e ≡ day_fault fault };

    fn from(fault: MoreFault) -> Self {
        match fault {
            MoreFault::TooMany => DayFault::TooMany,
            MoreFault::Unreadable { record_no, field } => DayFault::Unreadable { record_no, field },
            MoreFault::NoMemory => DayFault::NoMemory,
        }
    }
}
