//! A generated day whose desk answers what a test says.
ghost use Rattle.std.specs.Bool.{Decides};
ghost use Rattle.day_gen.specs.Room.{HasRoom};

use super::commands::at;
use crate::SET_UP;
use crate::codes::Codes;
use crate::course::Course;
use crate::day_gen::keep_planned;
use crate::due::Due;
use desk_base::{YEARS_BEGIN, YEARS_END};
use desk_model::{Cmd, Edition, EntryRef, Job, Reply, Stated};
use std::test::Fail;

/// The minute and the command of a turn, and what is answered then.
pub(crate) type Turn = (&'static [u8], Option<Cmd>, Option<Reply>);

// Whether there is room for one turn more.
fn has_room(course: &Course) -> bool
    ensures { Decides result (HasRoom course.now) }
{
    let minute = course.minute.number();
    minute >= YEARS_BEGIN && minute + 10_000 < YEARS_END && course.made < 9_999_999
}

/// A generator that goes on whatever it is told of the desk.
#[derive(Drop)]
pub(crate) struct Told {
    edition: Edition,
    course: Course,
    given: u32,
    job: Option<Job>,
    due: Due,
}

impl Told {
    pub(crate) fn new(number: u64, edition: Edition) -> Told {
        Told {
            edition,
            course: Course::first(number),
            given: 0,
            job: None,
            due: Due::Nothing,
        }
    }

    /// What is stated next; this is then answered.
    pub(crate) fn turn(&mut self, reply: Reply) -> Option<Stated> {
        if !has_room(&self.course) {
            return None;
        }
        let cmd = self.course.turn(
            &Codes::read(),
            self.edition,
            self.given,
            &self.job,
            self.due,
        );
        keep_planned(&mut self.job, &cmd);
        self.given = self.given.saturating_add(1);
        let stated = Stated::new(self.course.minute, cmd)?;
        self.due = Due::after(&EntryRef::new(0, &stated, stated.minute(), reply));
        Some(stated)
    }

    /// That with which it begins when the desk is set up.
    pub(crate) fn set_up(number: u64, edition: Edition) -> Told {
        let mut day = Told::new(number, edition);
        for _ in 0..SET_UP {
            day.turn(Reply::Done);
        }
        day
    }

    /// The index of the first turn, from 0, which is another; `None` where none is.
    pub(crate) fn first_wrong(&mut self, turns: &[Turn]) -> Result<Option<usize>, Fail> {
        for (i, (minute, cmd, reply)) in turns.iter().enumerate() {
            let reply = (*reply).ok_or("no reply")?;
            if self.turn(reply) != at(minute, *cmd) {
                return Ok(Some(i));
            }
        }
        Ok(None)
    }
}
