/// Where an employee is released for an interim, by 49 USC 21103(b)(5) to (7).
#[derive(Clone, Copy, Debug, PartialEq, Eq)]
pub enum Kind {
    /// A designated terminal.
    D,
    /// A place of (b)(7).
    P,
    /// Any other place.
    O,
}
