ghost use Rattle.std.specs.Prelude.{◌≡◌};
ghost use Rattle.desk_io.specs.declared.input_fault.InputFault.TheVariants.{NoMemory as no_memory};

use std::alloc::AllocError;
use thiserror::Error;

/// Why an input could not be taken whole.
#[derive(Clone, Copy, Debug, PartialEq, Eq, Error)]
pub enum InputFault {
    /// The source had a fault.
    #[error("read fault")]
    ReadFault,
    /// The source has more bytes than the limit.
    #[error("too long")]
    TooLong,
    /// Memory was wanting.
    #[error("no memory")]
    NoMemory,
}

impl From<AllocError> for InputFault {
    ghost from_gives = { λ _ fault. fault ≡ no_memory };

    fn from(_fault: AllocError) -> InputFault {
        InputFault::NoMemory
    }
}
