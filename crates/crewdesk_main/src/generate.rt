//! The form that makes a day from a number.
ghost use Rattle.std.specs.Prelude.{◌≡◌, ◌≢◌, ◌⊎◌, ◌≤◌, ◌<◌, ◌^◌};
ghost use Rattle.std.specs.Io.KnownBytes.{Appends, Keeps};
ghost use Rattle.desk_io.specs.Faults.{Rose};
ghost use Rattle.desk_io.specs.Giving.{AddsFront};
ghost use Rattle.desk_model.specs.histories.History.{opened};
ghost use Rattle.line_writer.specs.Tally.{Counts, tally_text};
ghost use Rattle.day_gen.specs.Day.{day_opening, generated_day};
ghost use Rattle.day_gen.specs.Generator.{generator_of, most_commands};

use crate::write_text::write_text;
use day_gen::{DayGen, Due, SET_UP, a_generated_day_grows};
use desk_io::{Sink, Status};
use desk_model::{DeskCore, Edition, Opening};
use fast_core::FastCore;
use line_writer::Tally;
use std::alloc::Global;

/// Makes a day of so many commands from a number, steps a new desk through them, and writes the tally of its answers to the sink.
pub fn tally_generated<K: Sink>(
    alloc: Global,
    commands: u32,
    number: u64,
    edition: Edition,
    sink: &mut K,
) -> Status
    requires some { SET_UP ≤ commands }
    requires most { commands ≤ most_commands edition }
    ensures fine { result ≡ Status.Fine → Appends (K.held sink.old) (K.held sink.new)
        (tally_text (generated_day edition number commands)) }
    ensures write_fault { result ≡ Status.WriteFault → AddsFront (K.held sink.old) (K.held sink.new)
        (tally_text (generated_day edition number commands)) }
    ensures write_cause { result ≡ Status.WriteFault → Rose (K.faults sink.old) (K.faults sink.new) }
    ensures silent { result ≡ Status.NoMemory → Keeps (K.held sink.old) (K.held sink.new) }
    ensures write_count { result ≢ Status.WriteFault → K.faults sink.new ≡ K.faults sink.old }
    ensures faults_grow { K.faults sink.old ≤ K.faults sink.new }
    ensures only { (result ≡ Status.Fine)
        ⊎ ((result ≡ Status.WriteFault) ⊎ (result ≡ Status.NoMemory)) }
{
    let mut day = DayGen::new(commands, number, edition);
    let opening = day.opening();
    match FastCore::new(alloc, opening, u64::from(commands)) {
        Ok(mut core) => write_text(
            sink,
            tally_of(&mut core, &mut day, &opening).write().as_slice(),
        ),
        Err(_) => Status::NoMemory,
    }
}

// Steps a desk that was opened so and has answered nothing yet through a generated day, and counts its answers.
fn tally_of<C: DeskCore>(core: &mut C, day: &mut DayGen, opening: &Opening) -> Tally
    requires start { C.stands core.old (opened (day_opening day.old.edition)) }
    requires opening { opening.now ≡ day_opening day.old.edition }
    requires first { day.old.given ≡ 0 }
    requires few { day.old.commands < 2 ^ 32 }
    requires room { day.old.commands ≤ C.room core.old }
    ensures { Counts result (generated_day day.old.edition day.old.number day.old.commands) }
{
    a_generated_day_grows();
    let mut tally = Tally::new(opening);
    let mut due = Due::Nothing;
    while let Some(stated) = day.next(due) {
        let entry = core.answer(0, &stated);
        tally.count(&entry);
        due = Due::after(&entry);
    }
    tally
}
