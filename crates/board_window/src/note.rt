ghost use Rattle.std.specs.Prelude.{◌≡◌, length};

use crate::front::Front;
use std::marker::Model;

/// What a wall told of its list: a beginning of it, of which a view that learns it falls short no more.
#[derive(Drop)]
pub struct Note {
    pub(crate) front: Front,
}

impl Model for Note {
    ghost use Rattle.board_window.specs.Walls.{FrontValue};

    ghost Value = { FrontValue };

    ghost view = { λ n. n.front };
}

impl Note {
    /// How many entries it has.
    pub fn count(&self) -> u32
        ensures { result ≡ length self.now.entries }
    {
        self.front.count()
    }
}
