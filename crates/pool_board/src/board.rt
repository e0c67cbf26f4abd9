ghost use Rattle.std.specs.Prelude.{◌≡◌, ◌≢◌, ℕ, ◌+◌, ◌*◌, ◌<◌, ◌≤◌, IfOk, IfErr, IfSome, IsOk, is_some, true, false, Some, None, [], ◌∷◌, ◌++◌, length};
ghost use Rattle.slot_tree.specs.declared.limits.TheConstants.{SLOT_LIMIT};
ghost use Rattle.slot_tree.specs.Slots.{filled};
ghost use Rattle.pool_board.specs.Members.{persons, is_listed, ready_of, without, are_distinct};
ghost use Rattle.pool_board.specs.Positions.{at_position, FindsReadyPosition};
ghost use Rattle.pool_board.specs.Board.{board_of, IsSameSort};

use crate::MembersFull;
use crate::slots::{find, hint_number, make_room, move_last};
use desk_base::{Code, IndexHints, Minute, NoMemory, PersonNo};
use slot_tree::{SlotTree, Steps};
use std::alloc::Global;
use std::marker::Model;
use std::sync::ledger::Ledger;

/// The most members that a board has.
pub const MOST_MEMBERS: u16 = 500;

/// A board of persons in order, each with the minute from which they are ready. It belongs to a place, and is a pool or an
/// extra board. Nobody is listed twice, and at most 500 are. Positions count from 1. Boards share the hints of where each person
/// stands; the number of each is its own.
pub struct Board {
    number: u8,
    place: Code,
    extra: bool,
    listed: u16,
    tree: SlotTree,
}

impl Drop for Board {
    fn drop(self) {
        let Self {
            number: _,
            place: _,
            extra: _,
            listed: _,
            tree: _,
        } = self;
    }
}

impl Model for Board {
    ghost use Rattle.pool_board.specs.Board.{BoardValue, board_of, IsBoard};
    ghost use Rattle.slot_tree.specs.Slots.{filled};

    ghost Value = { BoardValue };

    ghost view = { λ b. board_of b.place b.extra (filled b.tree) };

    ghost invariant = { λ b. IsBoard b.listed b.tree };
}

impl Board {
    /// The hints of 64 boards, with the numbers from 0; `NoMemory` where there is none for them.
    pub fn hints(alloc: Global) -> Result<IndexHints, NoMemory> {
        IndexHints::new(alloc, 18)
    }

    /// A board with a number, of this place and sort, with no members; `NoMemory` where there is none for it.
    pub fn new(alloc: Global, number: u8, place: Code, extra: bool) -> Result<Board, NoMemory>
        ensures { IfOk result (λ board. board ≡ board_of place extra []) }
    {
        Ok(Board {
            number,
            place,
            extra,
            listed: 0,
            tree: SlotTree::new(alloc, 10)?,
        })
    }

    // The slot in which a person may stand, by the hints.
    fn hint(&self, person: PersonNo, hints: &IndexHints) -> u32 {
        hints.of(hint_number(self.number, person)) as u32
    }

    /// Makes a board with no members as a new one of this place and sort.
    pub fn restart(&mut self, place: Code, extra: bool)
        requires { self.old.members ≡ [] }
        ensures { self.new ≡ board_of place extra [] }
    {
        self.place = place;
        self.extra = extra;
    }

    /// Puts a person who isn't listed at the bottom, ready from a minute on. Refused exactly where 500 are listed, and then
    /// nothing changes.
    pub fn list(
        &mut self,
        person: PersonNo,
        ready: Minute,
        hints: &mut IndexHints,
    ) -> Result<(), MembersFull>
        requires { is_listed person self.old.members ≡ false }
        ensures sort { IsSameSort self.old self.new }
        ensures order { IfOk result (λ _. self.new.members
            ≡ self.old.members ++ record { person = person; ready = ready } ∷ []) }
        ensures refused { IfErr result (λ _. (length self.old.members ≡ MOST_MEMBERS)
            × (self.new ≡ self.old)) }
        ensures room { length self.old.members < MOST_MEMBERS → IsOk result }
    {
        if self.listed == MOST_MEMBERS {
            return Err(MembersFull);
        }
        make_room(&mut self.tree, hints, self.number);
        let slot = self.tree.append(person, ready);
        hints.set(hint_number(self.number, person), slot as usize);
        self.listed += 1;
        Ok(())
    }

    /// Takes a listed person off; those behind move up.
    pub fn unlist(&mut self, person: PersonNo, hints: &IndexHints)
        requires { is_listed person self.old.members ≡ true }
        ensures sort { IsSameSort self.old self.new }
        ensures order { persons self.new.members ≡ without person (persons self.old.members) }
        ensures ready { (other : ℕ) → other ≢ person
            → ready_of other self.new.members ≡ ready_of other self.old.members }
    {
        if let Some(at) = find(&self.tree, self.hint(person, hints), person) {
            self.tree.clear(at.slot);
            self.listed -= 1;
        }
    }

    /// Sends a listed person to the bottom; each stays ready from the same minute on.
    pub fn to_bottom(&mut self, person: PersonNo, hints: &mut IndexHints)
        requires { is_listed person self.old.members ≡ true }
        ensures sort { IsSameSort self.old self.new }
        ensures order { persons self.new.members
            ≡ without person (persons self.old.members) ++ person ∷ [] }
        ensures ready { (who : ℕ) → ready_of who self.new.members ≡ ready_of who self.old.members }
    {
        if let Some(at) = find(&self.tree, self.hint(person, hints), person) {
            move_last(
                &mut self.tree,
                hints,
                self.number,
                at.slot,
                person,
                at.ready,
            );
        }
    }

    /// Sends a listed person to the bottom, ready from another minute on; each other one stays ready from the same minute on.
    pub fn to_bottom_ready(&mut self, person: PersonNo, ready: Minute, hints: &mut IndexHints)
        requires { is_listed person self.old.members ≡ true }
        ensures sort { IsSameSort self.old self.new }
        ensures order { persons self.new.members
            ≡ without person (persons self.old.members) ++ person ∷ [] }
        ensures this { ready_of person self.new.members ≡ Some ready }
        ensures others { (other : ℕ) → other ≢ person
            → ready_of other self.new.members ≡ ready_of other self.old.members }
    {
        if let Some(at) = find(&self.tree, self.hint(person, hints), person) {
            move_last(&mut self.tree, hints, self.number, at.slot, person, ready);
        }
    }

    /// Makes a listed person ready from another minute on. Nobody moves.
    pub fn set_ready(&mut self, person: PersonNo, ready: Minute, hints: &IndexHints)
        requires { is_listed person self.old.members ≡ true }
        ensures sort { IsSameSort self.old self.new }
        ensures order { persons self.new.members ≡ persons self.old.members }
        ensures this { ready_of person self.new.members ≡ Some ready }
        ensures others { (other : ℕ) → other ≢ person
            → ready_of other self.new.members ≡ ready_of other self.old.members }
    {
        if let Some(at) = find(&self.tree, self.hint(person, hints), person) {
            self.tree.set(at.slot, ready);
        }
    }

    /// Whether a person is listed.
    pub fn has(&self, person: PersonNo, hints: &IndexHints) -> bool
        ensures { result ≡ is_listed person self.now.members }
    {
        find(&self.tree, self.hint(person, hints), person).is_some()
    }

    /// The position of a person; `None` exactly where the person isn't listed.
    pub fn position(&self, person: PersonNo, hints: &IndexHints) -> Option<u16>
        ensures at { IfSome result (λ position. at_position (persons self.now.members) position ≡ Some person) }
        ensures listed { is_some result ≡ is_listed person self.now.members }
    {
        let at = find(&self.tree, self.hint(person, hints), person)?;
        Some(self.tree.before(at.slot) as u16 + 1)
    }

    /// Who stands at a position; `None` exactly where nobody does.
    pub fn at(&self, position: u16) -> Option<PersonNo>
        ensures { result ≡ at_position (persons self.now.members) position }
    {
        let Some(slot) = self.tree.nth(u32::from(position)) else {
            return None;
        };
        match self.tree.at(slot) {
            Some(held) => Some(held.person),
            None => None,
        }
    }

    /// How many members it has, at most 500, of whom none stands there twice.
    pub fn length(&self) -> u16
        ensures value { result ≡ length self.now.members }
        ensures most { result ≤ MOST_MEMBERS }
        ensures distinct { are_distinct (persons self.now.members) ≡ true }
    {
        self.listed
    }

    /// The place that it belongs to.
    pub fn place(&self) -> Code
        ensures { result ≡ self.now.place }
    {
        self.place
    }

    /// Whether it is an extra board.
    pub fn is_extra(&self) -> bool
        ensures { result ≡ self.now.extra }
    {
        self.extra
    }

    /// A board with the same place, sort, order and ready minutes; `NoMemory` where there is none for it.
    pub fn copy(&self, alloc: Global) -> Result<Board, NoMemory>
        ensures { IfOk result (λ board. board ≡ self.now) }
    {
        Ok(Board {
            number: self.number,
            place: self.place,
            extra: self.extra,
            listed: self.listed,
            tree: self.tree.copy(alloc)?,
        })
    }

    /// The first position, from one on, whose person is ready at the minute; `None` exactly where there is none. The steps are
    /// nodes that a search reads.
    pub fn ready_from<L: Ledger>(
        &self,
        position: u16,
        m: Minute,
        steps: &mut Steps<L>,
    ) -> Option<u16>
        requires { 1 ≤ position }
        ensures found { FindsReadyPosition self.now.members position m result }
        ensures cost { steps.new ≤ steps.old + 4 * (10 + 1) }
    {
        let Some(slot) = self.tree.nth(u32::from(position)) else {
            return None;
        };
        let Some(at) = self.tree.first_from(slot, m, steps) else {
            return None;
        };
        Some(self.tree.before(at) as u16 + 1)
    }

    /// Its slots, for a search: the filled ones are the members in order.
    pub fn slots(&self) -> &SlotTree
        ensures members { filled result.now ≡ self.now.members }
        ensures length { length result.now ≡ SLOT_LIMIT }
        ensures most { length (filled result.now) ≤ MOST_MEMBERS }
        ensures distinct { are_distinct (persons (filled result.now)) ≡ true }
    {
        &self.tree
    }
}
