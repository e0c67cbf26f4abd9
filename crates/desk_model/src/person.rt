use desk_base::Code;
use qualifications::Craft;

/// What a person was enrolled as. What the person can do may change, and isn't part of it.
#[derive(Clone, Copy, Debug, PartialEq, Eq)]
pub struct Person {
    /// What the person works as.
    pub craft: Craft,
    /// Where the person is at home.
    pub home: Code,
}
