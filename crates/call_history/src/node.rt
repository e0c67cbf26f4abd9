use desk_model::Entry;
use std::snapshot::Snapshot;

/// The last entry of a history; those before it are without bytes.
#[derive(Drop)]
pub(crate) struct Node {
    pub before: Snapshot<Option<Node>>,
    pub entry: Entry,
}
