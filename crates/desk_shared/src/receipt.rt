use desk_model::Entry;

/// What a caller has of a call: the entry that the desk keeps of it, and where.
#[derive(Clone, Copy, Debug)]
pub struct Receipt {
    /// How many entries are before it.
    pub place: u32,
    /// The entry, with the desk's reply.
    pub entry: Entry,
}
