ghost use Rattle.std.specs.Prelude.{◌≤◌, length, vec_capacity, ◌≡◌, ◌<◌, ◌/◌, ℕ, false, Some, IfOk, IfSome, slice_index_or};
ghost use Rattle.desk_register.specs.declared.turned_down.TheConstants.{PERSON_BITS, WORDS};

use crate::person_index::PersonIndex;
use crate::vacancy_index::VacancyIndex;
use desk_base::NoMemory;
use std::alloc::Global;

// How many bits a vacancy has: one for each of 1,000 persons, in whole words of 64.
const PERSON_BITS: usize = 1_024;

// How many words there are: 16 of each of 20,000 vacancies.
const WORDS: usize = 320_000;

/// Who has turned which vacancy down, by the indexes of both among all: for each vacancy a bit of each person, up to the last word
/// with a bit that is set. So the words grow as vacancies are made. There is memory for all.
#[derive(Drop)]
pub struct TurnedDown {
    pub(crate) words: Vec<u64>,
    ghost few: { length words.items ≤ WORDS },
    ghost room: { WORDS ≤ vec_capacity words },
}

impl TurnedDown {
    ghost use Rattle.desk_register.specs.TurnedDown.{bit_of, turned_at, TurnsDown};

    // The bit of the person at one index and the vacancy at another.
    fn bit_of(person: PersonIndex, vacancy: VacancyIndex) -> usize
        ensures value { result ≡ bit_of person vacancy }
        ensures few { person < PERSON_BITS }
        ensures range { result / 64 < WORDS }
    {
        vacancy.number() * PERSON_BITS + person.number()
    }

    /// Nobody has turned anything down; `NoMemory` where there is none for 1,000 persons and 20,000 vacancies.
    pub(crate) fn new(alloc: Global) -> Result<TurnedDown, NoMemory>
        ensures { IfOk result (λ x. (i j : ℕ) → turned_at x i j ≡ false) }
    {
        let words = Vec::with_capacity(alloc, WORDS)?;
        Ok(TurnedDown { words })
    }

    /// The same persons have turned the same vacancies down, with memory for all; `NoMemory` where there is none for it.
    pub(crate) fn copy(&self, alloc: Global) -> Result<TurnedDown, NoMemory>
        ensures { IfOk result (λ x. turned_at x ≡ turned_at self.now) }
    {
        let mut words = Vec::with_capacity(alloc, WORDS)?;
        words.extend_from_slice(&self.words)?;
        Ok(TurnedDown { words })
    }

    /// Whether the person at one index has turned down the vacancy at another.
    pub fn has(&self, person: PersonIndex, vacancy: VacancyIndex) -> bool
        ensures { result ≡ turned_at self.now person vacancy }
    {
        let bit = TurnedDown::bit_of(person, vacancy);
        match self.words.get(bit / 64) {
            Some(word) => (word >> (bit % 64)) & 1 == 1,
            None => false,
        }
    }

    // Keeps the words up to an index, of which those that were not kept have no bit.
    fn reach(&mut self, index: usize)
        requires { index < WORDS }
        ensures reached { index < length self.new.words.items }
        ensures same { (i : ℕ) → slice_index_or self.new.words.items i 0 ≡ slice_index_or self.old.words.items i 0 }
    {
        if self.words.len() <= index {
            let _reached = self.words.resize(index + 1, 0);
        }
    }

    // Keeps that the person at one index has turned down the vacancy at another.
    fn add(&mut self, person: PersonIndex, vacancy: VacancyIndex)
        ensures { TurnsDown (Some person) (Some vacancy) (turned_at self.old) (turned_at self.new) }
    {
        let bit = TurnedDown::bit_of(person, vacancy);
        self.reach(bit / 64);
        let word = self.words[bit / 64];
        self.words[bit / 64] = word | 1 << (bit % 64);
    }

    /// Keeps that the person at one index has turned down the vacancy at another, where there are both.
    pub(crate) fn keep(&mut self, person: Option<PersonIndex>, vacancy: Option<VacancyIndex>)
        ensures { TurnsDown person vacancy (turned_at self.old) (turned_at self.new) }
    {
        if let (Some(person), Some(vacancy)) = (person, vacancy) {
            self.add(person, vacancy);
        }
    }
}
