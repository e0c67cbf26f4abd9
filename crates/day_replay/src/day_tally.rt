//! The tally of a day.
ghost use Rattle.line_writer.specs.Tally.{Counts};

use crate::day_kept::DayKept;
use desk_base::NoMemory;
use desk_model::{EntryRef, Opening};
use line_writer::Tally;
use record_rows::LastMinute;
use std::alloc::Global;

impl<'a> DayKept<'a> for Tally {
    ghost kept_of = { Counts };

    fn of_opening(_alloc: Global, opening: &Opening, _bytes: usize) -> Result<Tally, NoMemory> {
        Ok(Tally::new(opening))
    }

    fn keep(
        &mut self,
        entry: &EntryRef,
        _line: Option<&'a [u8]>,
        _stated: &LastMinute,
    ) -> Result<(), NoMemory> {
        self.count(entry);
        Ok(())
    }
}
