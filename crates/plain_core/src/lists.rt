ghost use Rattle.std.specs.Prelude.{IfOk};

use desk_base::{NoMemory, PersonNo};
use duty_events::Event;
use std::alloc::Global;

/// The lists that the desk works with: the events of one person, and the members of one board. They are filled anew for
/// each question.
#[derive(Drop)]
pub(crate) struct Lists {
    pub events: Vec<Event>,
    pub members: Vec<PersonNo>,
}

impl Lists {
    ghost use Rattle.plain_core.specs.Room.{HasRoom};

    /// Lists with room for this many each.
    pub(crate) fn new(alloc: Global, room: usize) -> Result<Lists, NoMemory>
        ensures { IfOk result (HasRoom room) }
    {
        Ok(Lists {
            events: Vec::with_capacity(alloc, room)?,
            members: Vec::with_capacity(alloc, room)?,
        })
    }
}
