//! A day file, replayed as it is read.
ghost use Rattle.std.specs.Prelude.{◌≡◌, ◌≢◌, ◌≤◌, ℕ, List, [], MatchResult};
ghost use Rattle.desk_model.specs.statements.Opening.{OpeningValue};
ghost use Rattle.desk_model.specs.histories.History.{opened};
ghost use Rattle.command_parser.specs.CommandRecords.{HasRead, HasRecordFault, records_left};
ghost use Rattle.command_parser.specs.declared.limits.TheConstants.{COMMAND_LIMIT};
ghost use Rattle.day_replay.specs.FromDay.{AreReplayed};
ghost use Rattle.day_replay.specs.Replay.{day_history};

use crate::day_kept::DayKept;
use crate::from_day::FromDay;
use command_parser::{
    COMMAND_LIMIT, CommandRecords, DayFault, MoreFault, OpenDay,
    an_open_day_is_read_by_its_commands,
};
use desk_model::DeskCore;
use fast_core::FastCore;
use std::alloc::Global;

/// What was kept of a day's entries.
#[derive(Drop)]
pub(crate) struct Replayed<T> {
    /// That.
    pub(crate) kept: T,
}

impl<'a, T: DayKept<'a>> FromDay<'a> for Replayed<T> {
    ghost made_of = { λ day opening commands. T.kept_of day.kept (day_history opening commands) };

    fn from_day(alloc: Global, bytes: &'a [u8]) -> Result<Replayed<T>, DayFault> {
        an_open_day_is_read_by_its_commands();
        let mut day = OpenDay::of(alloc, bytes)?;
        let mut core = FastCore::new(alloc, day.opening, u64::from(COMMAND_LIMIT))?;
        let mut kept = T::of_opening(alloc, &day.opening, bytes.len())?;
        replay_records(&mut core, &mut day.records, &mut kept)?;
        Ok(Replayed { kept })
    }
}

// Steps a desk that was opened so and has answered nothing yet through the commands of the records as caller 0, and keeps its entries.
fn replay_records<'a, C: DeskCore, T: DayKept<'a>>(
    core: &mut C,
    records: &mut CommandRecords<'a>,
    kept: &mut T,
) -> Result<(), MoreFault>
    requires { records_left records.old ≤ C.room core.old }
    ensures { (rest : List (List (List ℕ))) (o : OpeningValue)
        → HasRead 2 COMMAND_LIMIT rest [] records.old → C.stands core.old (opened o)
        → T.kept_of kept.old (opened o)
        → MatchResult result (λ _. AreReplayed rest o (T.kept_of kept.new))
        (λ fault. fault ≢ MoreFault.NoMemory → HasRecordFault 2 COMMAND_LIMIT rest fault) }
{
    loop {
        match records.next() {
            Ok(true) => {
                let entry = core.answer(0, records.stated());
                kept.keep(&entry, records.line(), records.last_minute())?;
            }
            Ok(false) => return Ok(()),
            Err(fault) => return Err(fault),
        }
    }
}
