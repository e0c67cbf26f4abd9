//! What would be answered to the last commands of a day, if they came.
ghost use Rattle.std.specs.Prelude.{◌≡◌, ◌≤◌, [], IfOk, length, vec_capacity};
ghost use Rattle.std.specs.Bool.{OnTrue, OnFalse};
ghost use Rattle.std.specs.Io.KnownBytes.{Appends};
ghost use Rattle.desk_io.specs.Faults.{Rose};
ghost use Rattle.desk_io.specs.Giving.{AddsFront};
ghost use Rattle.desk_model.specs.statements.Opening.{OpeningValue};
ghost use Rattle.desk_model.specs.histories.History.{opened};
ghost use Rattle.day_replay.specs.Forecast.{IsParted, forecast_lines};
ghost use Rattle.day_replay.specs.Replay.{day_history};

use crate::gather;
use crate::journal::gather_history;
use crate::lines::{gather_lines, write_supposed};
use desk_base::NoMemory;
use desk_io::{Sink, put_all};
use desk_model::{DeskCore, Entry, Opening, Stated};
use fast_core::FastCore;
use forecast::{SupposeFault, a_history_goes_on_as_supposed, answer_each, suppose};
use std::alloc::Global;

/// The entries of a day.
#[derive(Drop)]
pub(crate) struct DayForecast {
    /// Those of the commands that the desk was given.
    pub(crate) answered: Vec<Entry>,
    /// Those that it would add for the others.
    pub(crate) supposed: Vec<Entry>,
}

/// Steps a desk that has answered nothing yet through the commands as caller 0, but for the last, as many as are asked for or all
/// where there are fewer, and says what it would answer to these.
pub(crate) fn forecast_day(
    alloc: Global,
    core: &mut FastCore,
    commands: &[Stated],
    asked: u32,
) -> Result<DayForecast, NoMemory>
    requires left { length commands.now ≤ ⟦<FastCore as DeskCore>⟧.room core.old }
    ensures { (o : OpeningValue) → ⟦<FastCore as DeskCore>⟧.stands core.old (opened o)
        → IfOk result (λ day. IsParted asked o (day_history o commands.now)
        day.answered.items day.supposed.items) }
{
    a_history_goes_on_as_supposed();
    let first = commands.len().saturating_sub(asked as usize);
    let mut answered = Vec::with_capacity(alloc, first)?;
    answer_each(core, &commands[..first], &mut answered);
    match suppose(alloc, core, &commands[first..]) {
        Ok(supposed) => Ok(DayForecast { answered, supposed }),
        Err(SupposeFault::NoMemory) => Err(NoMemory),
        Err(SupposeFault::TooMany { .. }) => unreachable!(),
    }
}

/// Writes the journal of a history that was opened so and has the first entries, how many are only supposed, and the lines of these, as
/// many lines at once as the buffer holds. It says whether the sink took all lines, and stops at the first fault.
pub(crate) fn write_forecast<K: Sink>(
    opening: &Opening,
    answered: &[Entry],
    supposed: &[Entry],
    buffer: &mut Vec<u8>,
    sink: &mut K,
) -> bool
    requires empty { buffer.old.items ≡ [] }
    requires room { 512 ≤ vec_capacity buffer.old }

    ensures all { OnTrue result (Appends (K.held sink.old) (K.held sink.new)
        (forecast_lines opening.now answered.now supposed.now)) }
    ensures front { OnFalse result (AddsFront (K.held sink.old) (K.held sink.new)
        (forecast_lines opening.now answered.now supposed.now)) }
    ensures faults_grow { K.faults sink.old ≤ K.faults sink.new }
    ensures cause { OnFalse result (Rose (K.faults sink.old) (K.faults sink.new)) }
    ensures no_fault { OnTrue result (K.faults sink.new ≡ K.faults sink.old) }
{
    if !gather_history(buffer, opening, answered, sink) {
        return false;
    }
    if !gather(buffer, write_supposed(supposed.len()).as_slice(), sink) {
        return false;
    }
    gather_lines(buffer, supposed, sink) && put_all(sink, buffer)
}
