ghost use Rattle.std.specs.Prelude.{◌≡◌, ℕ, ◌<◌, nat_eq, IfOk, true, false, length, if◌then◌else◌};
ghost use Rattle.desk_model.specs.declared.limits.TheConstants.{PERSON_LIMIT, BOARD_LIMIT};
ghost use Rattle.desk_state.specs.Words.{has_board, word_of, is_in, set_at};
ghost use Rattle.desk_state.specs.Changes.{put_by, HasRoom};

use crate::named_indexes::NamedIndexes;
use desk_base::NoMemory;
use desk_model::{Cmd, PERSON_LIMIT};
use desk_register::{BoardIndex, PersonIndex};
use std::alloc::Global;

/// For each of 1,000 persons the boards that they are on, each as a bit.
#[derive(Drop)]
pub(crate) struct Listings {
    pub(crate) words: Vec<u64>,
}

/// The first index at which a word has a board, of a word that has one.
pub(crate) fn first_board(word: u64) -> BoardIndex
    requires { 0 < word }
    ensures { has_board word result ≡ true }
{
    BoardIndex::of(word.trailing_zeros() as usize)
}

/// The word with the board at this index, or without it.
pub fn with_board(word: u64, board: BoardIndex, on: bool) -> u64
    ensures lesser { on ≡ false → has_board word board ≡ true → result < word }
    ensures has { (j : ℕ) → has_board result j ≡ (if nat_eq board j then on else has_board word j) }
{
    let bit = 1 << board.number();
    if on { word | bit } else { word & !bit }
}

impl Listings {
    /// Nobody is on a board; `NoMemory` where there is none for 1,000 persons.
    pub(crate) fn new(alloc: Global) -> Result<Listings, NoMemory>
        ensures many { IfOk result (λ l. length l.words.items ≡ PERSON_LIMIT) }
        ensures empty { IfOk result (λ l. (i j : ℕ) → is_in l.words.items i j ≡ false) }
    {
        Ok(Listings {
            words: vec![in alloc; 0; PERSON_LIMIT]?,
        })
    }

    /// The same persons are on the same boards; `NoMemory` where there is none for 1,000 persons.
    pub(crate) fn copy(&self, alloc: Global) -> Result<Listings, NoMemory>
        ensures { IfOk result (λ l. l.words.items ≡ self.now.words.items) }
    {
        let mut words = Vec::with_capacity(alloc, PERSON_LIMIT)?;
        words.extend_from_slice(&self.words)?;
        Ok(Listings { words })
    }

    /// The boards of the person at this index; none where there is nobody.
    pub(crate) fn of(&self, person: Option<PersonIndex>) -> u64
        ensures { result ≡ word_of self.now.words.items person }
    {
        let Some(index) = person else {
            return 0;
        };
        match self.words.get(index.number()) {
            Some(word) => *word,
            None => 0,
        }
    }

    // Sets whether the person at one index is on the board at another.
    fn set(&mut self, person: PersonIndex, board: BoardIndex, on: bool)
        ensures many { length self.new.words.items ≡ length self.old.words.items }
        ensures each { person < length self.old.words.items → board < BOARD_LIMIT → (i j : ℕ)
            → is_in self.new.words.items i j ≡ set_at person board on i j (is_in self.old.words.items i j) }
    {
        let at = person.number();
        if at < self.words.len() {
            self.words[at] = with_board(self.words[at], board, on);
        }
    }

    /// Keeps whom a command puts on a board that was done, and whom it takes off.
    pub(crate) fn change(&mut self, cmd: &Cmd, named: &NamedIndexes)
        ensures many { length self.new.words.items ≡ length self.old.words.items }
        ensures each { HasRoom cmd.now (length self.old.words.items) named.now → (i j : ℕ)
            → is_in self.new.words.items i j ≡ put_by cmd.now named.now i j (is_in self.old.words.items i j) }
    {
        let (Some(person), Some(board)) = (named.person, named.board) else {
            return;
        };
        match cmd {
            Cmd::List { .. } => self.set(person, board, true),
            Cmd::Unlist { .. } => self.set(person, board, false),
            _ => {}
        }
    }
}
