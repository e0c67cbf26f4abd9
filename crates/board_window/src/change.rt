use crate::front::Front;
use desk_base::Code;
use desk_model::Entry;

/// What an entry changes of the boards.
#[derive(Drop)]
pub(crate) struct Change {
    /// The entry.
    pub entry: Entry,
    /// The board of the offer that it declines.
    pub from: Option<Code>,
    /// The list up to it.
    pub front: Front,
}
