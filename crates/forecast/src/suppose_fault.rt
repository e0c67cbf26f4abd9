use thiserror::Error;

/// Why it can't be told what would be answered.
#[derive(Clone, Copy, Debug, PartialEq, Eq, Error)]
pub enum SupposeFault {
    /// There are more commands than the core has steps left. Keeps how many it has.
    #[error("more commands than the {left} that the desk has room for")]
    TooMany {
        /// How many steps the core has left.
        left: u64,
    },
    /// There was no memory for a copy of the core and for the entries.
    #[error("no memory")]
    NoMemory,
}
