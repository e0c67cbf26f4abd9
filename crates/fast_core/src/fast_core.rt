ghost use Rattle.fast_core.specs.Core.{IsSome};
ghost use Rattle.std.specs.Prelude.{◌≡◌, ◌↔◌, ◌≤◌, ◌<◌, ◌+◌, IfOk};
ghost use Rattle.desk_model.specs.declared.limits.TheConstants.{LAST_CALLER};
ghost use Rattle.desk_model.specs.histories.History.{History, opened, with_entry};
ghost use Rattle.desk_model.specs.histories.Legal.{moment, next};
ghost use Rattle.desk_answers.specs.Searched.{most_steps};
ghost use Rattle.fast_core.specs.Search.{search_steps};
ghost use Rattle.earliest_minute.specs.When.{IsWhen};
ghost use Rattle.fast_core.specs.Question.{IsQuestion};

use crate::desk_reads::DeskReads;
use crate::kept_desk::KeptDesk;
use desk_answers::next_entry;
use desk_base::{NoMemory, PersonNo, VacNo};
use desk_model::{DeskCore, Entry, EntryRef, Opening, Stated, one_history_is_legal};
use earliest_minute::{Earliest, earliest_clear};
use slot_tree::Steps;
use std::alloc::Global;
use std::marker::{Brand, PhantomData};
use std::sync::ledger::{Blank, Ledger};

/// A desk that keeps no entry: it keeps its persons, boards, vacancies, offers and clocks as they stand, in memory that it took
/// when it was made, and answers by looking them up.
pub struct FastCore {
    pub(crate) desk: KeptDesk,
    pub(crate) left: u64,
    ghost some: { IsSome desk },
}

impl FastCore {
    /// A desk that was opened so and takes so many steps. All memory is taken here that it may come to need, and as much whatever
    /// the steps; `NoMemory` where there is none.
    pub fn new(alloc: Global, opening: Opening, steps: u64) -> Result<FastCore, NoMemory>
        ensures stands { IfOk result (λ core. ⟦<FastCore as DeskCore>⟧.stands core (opened opening)) }
        ensures opening { IfOk result (λ core. ⟦<FastCore as DeskCore>⟧.opening core ≡ opening) }
        ensures room { IfOk result (λ core. ⟦<FastCore as DeskCore>⟧.room core ≡ steps) }
    {
        let desk = KeptDesk::new(alloc, opening)?;
        Ok(FastCore { desk, left: steps })
    }

    /// A desk that stands for the same histories and takes as many further steps. It takes the memory of a new one; `NoMemory` where
    /// there is none, and this one stays as it is.
    pub fn copy(&self, alloc: Global) -> Result<FastCore, NoMemory>
        ensures stands { IfOk result (λ core. (h : History)
            → ⟦<FastCore as DeskCore>⟧.stands core h ↔ ⟦<FastCore as DeskCore>⟧.stands self.now h) }
        ensures opening { IfOk result (λ core. ⟦<FastCore as DeskCore>⟧.opening core ≡ ⟦<FastCore as DeskCore>⟧.opening self.now) }
        ensures room { IfOk result (λ core. ⟦<FastCore as DeskCore>⟧.room core ≡ ⟦<FastCore as DeskCore>⟧.room self.now) }
    {
        let desk = self.desk.copy(alloc)?;
        Ok(FastCore {
            desk,
            left: self.left,
        })
    }

    /// As `answer`, and counts the nodes that its searches of boards read: for `next` and `offer` at most 44 for each board of the
    /// vacancy's chain, and 44 more for each of its members who is ready and has a bar; for all else none.
    pub fn answer_counted<'s, L: Ledger>(
        &mut self,
        caller: u8,
        stated: &'s Stated,
        steps: &mut Steps<L>,
    ) -> EntryRef<'s>
        requires room { 0 < ⟦<FastCore as DeskCore>⟧.room self.old }
        requires caller { caller ≤ LAST_CALLER }
        ensures answer { (h : History) → ⟦<FastCore as DeskCore>⟧.stands self.old h → result ≡ next h caller stated.now }
        ensures stands { (h : History) → ⟦<FastCore as DeskCore>⟧.stands self.old h
            → ⟦<FastCore as DeskCore>⟧.stands self.new (with_entry h result) }
        ensures room { ⟦<FastCore as DeskCore>⟧.room self.new + 1 ≡ ⟦<FastCore as DeskCore>⟧.room self.old }
        ensures opening { ⟦<FastCore as DeskCore>⟧.opening self.new ≡ ⟦<FastCore as DeskCore>⟧.opening self.old }
        ensures steps { (h : History) → ⟦<FastCore as DeskCore>⟧.stands self.old h
            → steps.new ≤ steps.old + most_steps (search_steps h) h (moment h stated.now.minute) stated.now.cmd }
    {
        one_history_is_legal();
        let looks = DeskReads::<L> {
            desk: &self.desk,
            ledger: PhantomData,
        };
        let entry = next_entry(&looks, steps, caller, stated);
        self.desk.keep(&entry);
        self.left -= 1;
        entry
    }

    // The same with a count of its own.
    fn answer_in<'s, L: Ledger>(
        &mut self,
        blank: Blank,
        caller: u8,
        stated: &'s Stated,
    ) -> EntryRef<'s>
        requires name { blank.name ≡ L.name }
        requires parts { blank.parts ≡ L.parts }
        requires some { 0 < blank.parts }
        requires room { 0 < ⟦<FastCore as DeskCore>⟧.room self.old }
        requires caller { caller ≤ LAST_CALLER }
        ensures answer { (h : History) → ⟦<FastCore as DeskCore>⟧.stands self.old h → result ≡ next h caller stated.now }
        ensures stands { (h : History) → ⟦<FastCore as DeskCore>⟧.stands self.old h
            → ⟦<FastCore as DeskCore>⟧.stands self.new (with_entry h result) }
        ensures room { ⟦<FastCore as DeskCore>⟧.room self.new + 1 ≡ ⟦<FastCore as DeskCore>⟧.room self.old }
        ensures opening { ⟦<FastCore as DeskCore>⟧.opening self.new ≡ ⟦<FastCore as DeskCore>⟧.opening self.old }
    {
        let mut steps = Steps::<L>::new(blank);
        self.answer_counted(caller, stated, &mut steps)
    }

    /// The answer to a question: to `hours`, `at`, `explain` or `vac`, the entry that the rules would give for it next, as caller 0. It
    /// takes no memory.
    pub fn ask(&self, stated: Stated) -> Entry
        requires { IsQuestion stated.cmd }
        ensures { (h : History) → ⟦<FastCore as DeskCore>⟧.stands self.now h → result ≡ next h 0 stated }
    {
        self.ask_in::<Brand>(Blank::new(1), &stated)
    }

    /// From when on nothing bars a person from a vacancy, as things stand: the first minute from the last moment to the report at which
    /// nothing bars them, or what bars them at the report. It takes no memory.
    pub fn earliest(&self, vac: VacNo, person: PersonNo) -> Earliest
        ensures { (h : History) → ⟦<FastCore as DeskCore>⟧.stands self.now h → IsWhen h vac person result }
    {
        self.earliest_in::<Brand>(Blank::new(1), vac, person)
    }

    // The same with a count of its own.
    fn ask_in<L: Ledger>(&self, blank: Blank, stated: &Stated) -> Entry
        requires name { blank.name ≡ L.name }
        requires parts { blank.parts ≡ L.parts }
        requires some { 0 < blank.parts }
        ensures { (h : History) → ⟦<FastCore as DeskCore>⟧.stands self.now h → result ≡ next h 0 stated.now }
    {
        let mut steps = Steps::<L>::new(blank);
        next_entry(&self.looks(), &mut steps, 0, stated).to_entry()
    }

    fn earliest_in<L: Ledger>(&self, blank: Blank, vac: VacNo, person: PersonNo) -> Earliest
        requires name { blank.name ≡ L.name }
        requires parts { blank.parts ≡ L.parts }
        requires some { 0 < blank.parts }
        ensures { (h : History) → ⟦<FastCore as DeskCore>⟧.stands self.now h → IsWhen h vac person result }
    {
        let mut steps = Steps::<L>::new(blank);
        earliest_clear(&self.looks(), &mut steps, vac, person)
    }

    // The desk, with searches that are counted in this ledger.
    fn looks<L: Ledger>(&self) -> DeskReads<'_, L>
        ensures { result.desk.now ≡ self.now.desk }
    {
        DeskReads {
            desk: &self.desk,
            ledger: PhantomData,
        }
    }
}

impl Drop for FastCore {
    fn drop(self) {
        let Self { desk: _, left: _ } = self;
    }
}

impl DeskCore for FastCore {
    ghost use Rattle.fast_core.specs.KeptDesk.{Tells};
    ghost use Rattle.fast_core.specs.Core.{opened-as};

    ghost opening = { λ core. core.desk.opening };

    ghost room = { λ core. core.left };

    ghost stands = { λ core h. Tells core.desk h };

    fn answer<'s>(&mut self, caller: u8, stated: &'s Stated) -> EntryRef<'s> {
        self.answer_in::<Brand>(Blank::new(1), caller, stated)
    }

    fn left(&self) -> u64 {
        self.left
    }

    ghost some = { λ core. core.some };

    ghost opened = { λ core h tells. opened-as core.desk h tells };

    ghost legal = { λ core h tells. tells.legal };
}
