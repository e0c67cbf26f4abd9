/// What a sink answers when it is given bytes.
#[derive(Clone, Copy, Debug, PartialEq, Eq)]
pub enum Giving {
    /// So many bytes from the front of the piece were taken.
    Took(usize),
    /// The sink had a fault, and took nothing.
    Failed,
}
