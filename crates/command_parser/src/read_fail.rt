ghost use Rattle.command_parser.specs.declared.read_fail.ReadFail.TheVariants.{NoMemory};
ghost use Rattle.std.specs.Prelude.{◌≡◌};

use desk_base::NoMemory as WantOfMemory;
use thiserror::Error;

/// Why a caller's line is no command.
#[derive(Clone, Copy, Debug, PartialEq, Eq, Error)]
pub enum ReadFail {
    /// The number of its first wrong field, from 1; 0 where it isn't just one record.
    #[error("malformed {0}")]
    Malformed(u8),
    /// Memory was wanting.
    #[error("no memory")]
    NoMemory,
}

impl From<WantOfMemory> for ReadFail {
    ghost from_gives = { λ _ e. e ≡ NoMemory };

    fn from(_fault: WantOfMemory) -> Self {
        ReadFail::NoMemory
    }
}
