ghost use Rattle.std.specs.Prelude.{◌≡◌, ◌≤◌, ◌<◌, IfSome, IfNone};
ghost use Rattle.std.specs.Option.{option_or};
ghost use Rattle.day_gen.specs.Due.{due_by, last_entry, plans};
ghost use Rattle.day_gen.specs.Day.{day_opening, generated_day, day_statement};
ghost use Rattle.day_gen.specs.Generator.{generator_of, most_commands, one_more};

use crate::codes::Codes;
use crate::course::Course;
use crate::due::Due;
use crate::laws::a_generated_day_is_legal;
use crate::{ANSWER, FIRST_MONTH, MONTHS, SET_UP};
use desk_base::{Month, Window};
use desk_model::{Cmd, Edition, Job, Opening, Stated};
use std::marker::Model;

/// A generator of the commands of a day, which a desk answers one after another: each follows from a number, from what the
/// generator gave before, and from the last entry of the desk.
#[derive(Drop)]
pub struct DayGen {
    edition: Edition,
    number: u64,
    commands: u32,
    given: u32,
    course: Course,
    job: Option<Job>,
    codes: Codes,
}

impl Model for DayGen {
    ghost use Rattle.day_gen.specs.Generator.{GeneratorValue};
    ghost use Rattle.day_gen.specs.GeneratorInside.{generator_value, KeepsGenerator};

    ghost Value = { GeneratorValue };

    ghost view = { generator_value };

    ghost invariant = { KeepsGenerator };
}

impl DayGen {
    /// A generator of so many commands from a number: 64 to 20,000 in the first edition, and to 10,000 in the second.
    pub fn new(commands: u32, number: u64, edition: Edition) -> DayGen
        requires some { SET_UP ≤ commands }
        requires most { commands ≤ most_commands edition }
        ensures { result ≡ generator_of edition number commands 0 }
    {
        DayGen {
            edition,
            number,
            commands,
            given: 0,
            course: Course::first(number),
            job: None,
            codes: Codes::read(),
        }
    }

    /// How the desk is opened that is to answer.
    pub fn opening(&self) -> Opening
        ensures { result ≡ day_opening self.now.edition }
    {
        let month = Month::new(FIRST_MONTH).unwrap();
        let window = Window::new(month, MONTHS).unwrap();
        Opening::new(month.first(), window, ANSWER, self.edition).unwrap()
    }

    /// What is stated next, by caller 0, where this is what the last entry of the desk leaves to do, or nothing before the first: it
    /// answered all that was stated so far and nothing else. `None` where all commands were given.
    pub fn next(&mut self, due: Due) -> Option<Stated>
        requires { due ≡ due_by (last_entry (generated_day self.old.edition self.old.number self.old.given)) }
        ensures none { IfNone result ((self.old.given ≡ self.old.commands) × (self.new ≡ self.old)) }
        ensures some { IfSome result (λ stated. (self.old.given < self.old.commands)
            × (stated ≡ day_statement self.old.edition self.old.number self.old.given)
            × (self.new ≡ one_more self.old)) }
    {
        a_generated_day_is_legal();
        if self.given == self.commands {
            return None;
        }
        let cmd = self
            .course
            .turn(&self.codes, self.edition, self.given, &self.job, due);
        keep_planned(&mut self.job, &cmd);
        self.given += 1;
        Some(Stated::new(self.course.minute, cmd).unwrap())
    }
}

/// Keeps the job of the vacancy that a command makes, if it makes one.
pub(crate) fn keep_planned(job: &mut Option<Job>, cmd: &Cmd)
    ensures { job.new ≡ option_or (plans cmd.now) job.old }
{
    if let Cmd::Vacancy(made) = cmd {
        *job = Some(*made);
    }
}
