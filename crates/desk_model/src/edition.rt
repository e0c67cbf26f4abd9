/// An edition of this desk's rules. A desk keeps the edition that it was opened with.
#[derive(Clone, Copy, Debug, PartialEq, Eq, Hash)]
pub enum Edition {
    /// The first: each vacancy plans at most twelve hours on duty, and nobody is held.
    One,
    /// The second: a relief vacancy may plan sixteen, 49 USC 21103(d), and who declines an offer is held for eight hours.
    Two,
}
