ghost use Rattle.std.specs.Prelude.{◌≡◌, ◌<◌, ◌≤◌, ◌^◌, ◌++◌, ◌∷◌, [], IfSome, vec_len, vec_capacity};
ghost use Rattle.desk_model.specs.declared.limits.TheConstants.{LAST_CALLER};
ghost use Rattle.desk_model.specs.statements.Entry.{entry_of};
ghost use Rattle.desk_model.specs.declared.reply.Reply.TheVariants.{Done};

use desk_base::{Minute, Month, PersonNo, Window};
use desk_model::{Booked, Cmd, Edition, Entry, Opening, Reply, Stated};
use std::alloc::Global;
use turn_gate::Lasting;

/// A book that is a heap of entries, all of one statement. It is not let go, but taken apart.
pub(crate) struct Pile {
    opening: Opening,
    stated: Stated,
    moment: Minute,
    entries: Vec<Entry>,
    ghost few: { vec_capacity entries < 2 ^ 32 },
}

impl Booked for Pile {
    ghost use Rattle.std.specs.Prelude.{vec_capacity};
    ghost use Rattle.desk_model.specs.histories.History.{history_of};
    ghost use Rattle.desk_model.specs.histories.Mark.{no_wall};

    ghost history = { λ p. history_of p.opening p.entries.items };

    ghost room = { λ p. vec_capacity p.entries };

    ghost mark = { λ _. no_wall };

    fn count(&self) -> u32 {
        self.entries.len() as u32
    }

    ghost use Rattle.std.proofs.Common.{rules};

    ghost within = { λ p. Prim.search rules };
}

// Each of its entries is sure.
impl Lasting for Pile {
    ghost use Rattle.std.specs.Prelude.{vec_len};

    ghost sure = { λ p. vec_len p.entries };

    fn defers(&self) -> bool {
        false
    }
}

impl Pile {
    /// One entry more, of this caller.
    pub(crate) fn add(&mut self, caller: u8)
        requires caller { caller ≤ LAST_CALLER }
        requires room { vec_len self.old.entries < vec_capacity self.old.entries }
        ensures entries { self.new.entries.items
            ≡ self.old.entries.items ++ entry_of caller self.old.stated self.old.moment Done ∷ [] }
        ensures room { vec_capacity self.new.entries ≡ vec_capacity self.old.entries }
        ensures opening { self.new.opening ≡ self.old.opening }
    {
        let entry = Entry::new(caller, self.stated, self.moment, Reply::Done);
        self.entries.push_reserved(entry);
    }

    /// The callers of its entries, in order.
    pub(crate) fn into_callers(self, alloc: Global) -> Option<Vec<u8>> {
        let Pile {
            opening: _,
            stated: _,
            moment: _,
            entries,
        } = self;
        entries.iter().map(|e| e.caller()).collect(alloc).ok()
    }
}

/// An empty pile with so much room.
pub(crate) fn empty(alloc: Global, room: u32) -> Option<Pile>
    ensures entries { IfSome result (λ p. p.entries.items ≡ []) }
    ensures room { IfSome result (λ p. vec_capacity p.entries ≡ room) }
{
    let moment = Minute::read(b"2024-03-04 00:00")?;
    let window = Window::new(Month::of(moment), 1)?;
    let opening = Opening::new(moment, window, 15, Edition::One)?;
    let person = PersonNo::new(101)?;
    let stated = Stated::new(moment, Cmd::MarkOff { person })?;
    Some(Pile {
        opening,
        stated,
        moment,
        entries: Vec::with_capacity(alloc, room as usize).ok()?,
    })
}
