ghost use Rattle.std.specs.Prelude.{◌≡◌, ◌≤◌, ◌++◌, nat_lt, IfOk, length, [], ◌∷◌, if◌then◌else◌};
ghost use Rattle.std.specs.List.{slice_get};
ghost use Rattle.desk_model.specs.declared.limits.TheConstants.{MEMBER_LIMIT};
ghost use Rattle.desk_model.specs.laws.Comes.{without};
ghost use Rattle.board_window.specs.Becomes.{set_last};

use desk_base::{NoMemory, PersonNo};
use desk_model::MEMBER_LIMIT;
use std::alloc::Global;
use std::marker::Model;

/// The persons on a board, in its order, with memory for 500.
#[derive(Drop)]
pub(crate) struct Members {
    persons: Vec<PersonNo>,
}

impl Model for Members {
    ghost use Rattle.std.specs.Prelude.{ℕ, List, ◌≤◌, length, vec_capacity};
    ghost use Rattle.desk_model.specs.declared.limits.TheConstants.{MEMBER_LIMIT};

    ghost Value = { List ℕ };

    ghost view = { λ m. m.persons.items };

    ghost invariant = { λ m. (MEMBER_LIMIT ≤ vec_capacity m.persons) × (length m.persons.items ≤ MEMBER_LIMIT) };
}

impl Members {
    /// Nobody; `NoMemory` where there is none for 500.
    pub(crate) fn new(alloc: Global) -> Result<Members, NoMemory>
        ensures { IfOk result (λ m. m ≡ []) }
    {
        Ok(Members {
            persons: Vec::with_capacity(alloc, MEMBER_LIMIT)?,
        })
    }

    /// How many there are.
    pub(crate) fn count(&self) -> usize
        ensures count { result ≡ length self.now }
        ensures few { result ≤ MEMBER_LIMIT }
    {
        self.persons.len()
    }

    /// Who is there at an index, from 0.
    pub(crate) fn at(&self, index: usize) -> Option<PersonNo>
        ensures { result ≡ slice_get self.now index }
    {
        self.persons.get(index).copied()
    }

    /// Takes a person out.
    pub(crate) fn take_out(&mut self, person: PersonNo)
        ensures { self.new ≡ without person self.old }
    {
        self.persons.retain(|other| person != *other);
    }

    // Sets a person last who isn't there, where there is room.
    fn add(&mut self, person: PersonNo)
        ensures { self.new ≡ (if nat_lt (length self.old) MEMBER_LIMIT then self.old ++ person ∷ [] else self.old) }
    {
        if self.persons.len() < MEMBER_LIMIT {
            self.persons.push_reserved(person);
        }
    }

    /// Sets a person last, where they are put on the board or stand on it, and there is room.
    pub(crate) fn set_last(&mut self, is_put: bool, person: PersonNo)
        ensures { self.new ≡ set_last is_put person self.old }
    {
        if is_put || self.persons.contains(&person) {
            self.take_out(person);
            self.add(person);
        }
    }
}
