ghost use Rattle.std.specs.Prelude.{◌≡◌, ◌≤◌, ◌+◌, vec_len, vec_capacity, IfOk};
ghost use Rattle.desk_model.specs.histories.History.{History, opened};
ghost use Rattle.plain_core.specs.Room.{HasRoom};

use crate::kept::Kept;
use crate::lists::Lists;
use desk_answers::next_entry;
use desk_base::NoMemory;
use desk_model::{DeskCore, Entry, EntryRef, Opening, Stated};
use std::alloc::Global;

/// A desk that keeps its opening and its entries, and finds each answer by reading the entries from the first on. It has
/// lists for the events of one person and the members of one board, which it fills anew where it asks about them.
#[derive(Drop)]
pub struct PlainCore {
    kept: Kept,
    lists: Lists,
    left: u64,
    ghost room: { vec_len kept.entries + left ≤ vec_capacity kept.entries },
    ghost working: { HasRoom (vec_capacity kept.entries) lists },
}

impl PlainCore {
    /// A desk opened so, with memory for this many steps; `NoMemory` where there is none for them.
    pub fn new(alloc: Global, opening: Opening, steps: u64) -> Result<PlainCore, NoMemory>
        ensures stands { IfOk result (λ core. ⟦<PlainCore as DeskCore>⟧.stands core (opened opening)) }
        ensures opening { IfOk result (λ core. ⟦<PlainCore as DeskCore>⟧.opening core ≡ opening) }
        ensures room { IfOk result (λ core. ⟦<PlainCore as DeskCore>⟧.room core ≡ steps) }
    {
        let entries = Vec::with_capacity(alloc, steps as usize)?;
        let lists = Lists::new(alloc, entries.capacity())?;
        Ok(PlainCore {
            kept: Kept::new(opening, entries),
            lists,
            left: steps,
        })
    }
}

impl PlainCore {
    /// The entries that it has answered, in their order.
    pub fn entries(&self) -> &[Entry]
        ensures { (h : History) → ⟦<PlainCore as DeskCore>⟧.stands self.now h
            → result.now ≡ h.entries }
    {
        &self.kept.entries
    }
}

impl DeskCore for PlainCore {
    ghost use Rattle.plain_core.specs.Kept.{IsKept, some-kept, opened-as};

    ghost opening = { λ core. core.kept.opening };

    ghost room = { λ core. core.left };

    ghost stands = { λ core h. IsKept core.kept.opening core.kept.entries.items h };

    fn answer<'s>(&mut self, caller: u8, stated: &'s Stated) -> EntryRef<'s> {
        let entry = next_entry(&self.kept, &mut self.lists, caller, stated);
        self.kept.entries.push_reserved(entry.to_entry());
        self.left -= 1;
        entry
    }

    fn left(&self) -> u64 {
        self.left
    }

    ghost some = { λ core. some-kept core.kept.opening core.kept.entries.items core.kept.legal };

    ghost opened = { λ core h is. opened-as core.kept.opening core.kept.entries.items h is };

    ghost legal = { λ core h is. is.legal };
}
