//! What is made of a day file.
ghost use Rattle.std.specs.Prelude.{◌≡◌, ◌≢◌, IfOk, IfErr};

use command_parser::{DayFault, DayFile, read_day};
use std::alloc::Global;

/// What is made of a day file.
pub trait FromDay<'a>: Drop {
    ghost use Rattle.std.specs.Prelude.{List};
    ghost use Rattle.desk_model.specs.statements.Opening.{OpeningValue};
    ghost use Rattle.desk_model.specs.statements.Statement.{StatedValue};
    ghost use Rattle.command_parser.specs.DayFile.{HasFault};
    ghost use Rattle.day_replay.specs.FromDay.{IsMade};

    // It is what is made of a day file with this opening and these commands.
    ghost made_of: { Self → OpeningValue → List StatedValue → Type 0 };

    /// Makes it of the day file that the bytes are.
    fn from_day(alloc: Global, bytes: &'a [u8]) -> Result<Self, DayFault>
        ensures made { IfOk result (λ made. IsMade bytes.now (made_of made)) }
        ensures fault { IfErr result (λ fault. fault ≢ DayFault.NoMemory
            → HasFault bytes.now fault) };
}

impl<'a> FromDay<'a> for DayFile {
    ghost made_of = { λ day opening commands. (day.opening ≡ opening) × (day.commands.items ≡ commands) };

    fn from_day(alloc: Global, bytes: &'a [u8]) -> Result<DayFile, DayFault> {
        read_day(alloc, bytes)
    }
}
