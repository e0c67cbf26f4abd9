ghost use Rattle.std.specs.Prelude.{◌≡◌, [], IfOk};
ghost use Rattle.board_window.specs.Shelves.{after};

use crate::boards::Boards;
use crate::change::Change;
use crate::front::Front;
use desk_base::NoMemory;
use left_right::Absorb;
use std::alloc::{AllocError, Global};

/// The boards of a desk, and the list of entries that they are made of.
#[derive(Drop)]
pub(crate) struct Shelf {
    pub boards: Boards,
    pub front: Front,
}

impl Shelf {
    /// No boards, beside a list, with memory for 64; `NoMemory` where there is none for them.
    pub(crate) fn new(alloc: Global, front: &Front) -> Result<Shelf, NoMemory>
        ensures boards { IfOk result (λ s. s.boards ≡ []) }
        ensures front { IfOk result (λ s. s.front ≡ front.now) }
    {
        Ok(Shelf {
            boards: Boards::new(alloc)?,
            front: front.again(),
        })
    }

    /// Follows a change. It takes no memory.
    pub(crate) fn follow(&mut self, change: &Change)
        ensures { self.new ≡ after self.old change.now }
    {
        self.boards.keep(&change.entry, &change.from);
        self.front = change.front.again();
    }
}

impl Absorb<Change> for Shelf {
    ghost use Rattle.board_window.specs.Shelves.{after};

    type State = Shelf;

    ghost state = { λ s. s };

    ghost applied = { after };

    ghost never_fails = { Unit {0} };

    fn absorb_first(&mut self, operation: &Change, _other: &Shelf) -> Result<(), AllocError> {
        self.follow(operation);
        Ok(())
    }
}
