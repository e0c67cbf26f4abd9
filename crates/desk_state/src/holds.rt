ghost use Rattle.std.specs.Prelude.{◌*◌, ◌≤◌, length, vec_capacity, ◌≡◌, ◌<◌, ◌&&◌, ℕ, nat_eq, max, if◌then◌else◌, IfOk, slice_index};
ghost use Rattle.desk_model.specs.declared.limits.TheConstants.{PERSON_LIMIT, BOARD_LIMIT};

use desk_base::{Minute, NoMemory};
use desk_model::{BOARD_LIMIT, PERSON_LIMIT};
use desk_register::{BoardIndex, PersonIndex};
use std::alloc::Global;

// Until when each of 1,000 persons is held by each of 64 boards, by their indexes: the boards of one person after those of
// another, up to the last index at which somebody is held. There is memory for all.
#[derive(Drop)]
pub(crate) struct Holds {
    pub(crate) ends: Vec<Minute>,
    ghost few: { length ends.items ≤ PERSON_LIMIT * BOARD_LIMIT },
    ghost room: { PERSON_LIMIT * BOARD_LIMIT ≤ vec_capacity ends },
}

impl Holds {
    ghost use Rattle.desk_state.specs.Holds.{end_at};

    /// No holds; `NoMemory` where there is none for those of 1,000 persons by 64 boards.
    pub(crate) fn new(alloc: Global) -> Result<Holds, NoMemory>
        ensures { IfOk result (λ x. (person board : ℕ) → end_at x person board ≡ 0) }
    {
        let ends = Vec::with_capacity(alloc, PERSON_LIMIT * BOARD_LIMIT)?;
        Ok(Holds { ends })
    }

    /// The same holds again; `NoMemory` where there is none for those of 1,000 persons by 64 boards.
    pub(crate) fn copy(&self, alloc: Global) -> Result<Holds, NoMemory>
        ensures { IfOk result (λ x. end_at x ≡ end_at self.now) }
    {
        let mut ends = Vec::with_capacity(alloc, PERSON_LIMIT * BOARD_LIMIT)?;
        ends.extend_from_slice(&self.ends)?;
        Ok(Holds { ends })
    }

    /// Until when the person at this index is held by the board at this one; the first minute of all where they aren't.
    pub(crate) fn end(&self, person: PersonIndex, board: BoardIndex) -> Minute
        ensures { result ≡ end_at self.now person board }
    {
        match self
            .ends
            .get(person.number() * BOARD_LIMIT + board.number())
        {
            Some(end) => *end,
            None => Minute::FIRST,
        }
    }

    // Keeps the ends up to an index, of which those that were not kept are the first minute of all.
    fn reach(&mut self, index: usize)
        requires { index < PERSON_LIMIT * BOARD_LIMIT }
        ensures reached { index < length self.new.ends.items }
        ensures same { (i : ℕ) → slice_index self.new.ends.items i ≡ slice_index self.old.ends.items i }
    {
        if self.ends.len() <= index {
            let _reached = self.ends.resize(index + 1, Minute::FIRST);
        }
    }

    /// Holds the person at this index until then by the board at this one, where they aren't held for longer.
    pub(crate) fn hold(&mut self, person: PersonIndex, board: BoardIndex, until: Minute)
        ensures { (i j : ℕ) → end_at self.new i j
            ≡ (if nat_eq person i && nat_eq board j then max (end_at self.old i j) until else end_at self.old i j) }
    {
        let index = person.number() * BOARD_LIMIT + board.number();
        self.reach(index);
        let now = self.ends[index];
        if now < until {
            self.ends[index] = until;
        }
    }
}
