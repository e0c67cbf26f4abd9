use crate::note::Note;

/// What a wall shows after entries were given to it.
#[derive(Drop)]
pub struct Showing {
    /// The list that its views may see.
    pub note: Note,
    /// How many of the entries are not in it yet. Above 0 is a want of memory.
    pub behind: u32,
}
