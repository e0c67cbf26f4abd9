use desk_base::Code;

/// What a board was set up as.
#[derive(Clone, Copy, Debug, PartialEq, Eq)]
pub struct BoardSetup {
    /// It is an extra board, and no pool.
    pub extra: bool,
    /// Its place.
    pub place: Code,
}
