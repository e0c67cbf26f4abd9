use crate::spot::Spot;

/// What a look at a board saw.
#[derive(Clone, Copy, Debug, PartialEq, Eq)]
pub struct Look {
    /// How many entries of the history were seen.
    pub seen: u32,
    /// What stands at the position by them.
    pub what: Spot,
}
