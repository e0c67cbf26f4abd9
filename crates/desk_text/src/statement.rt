use command_parser::some_statement;
use desk_model::Stated;

/// Who states what.
#[derive(Clone, Copy, Debug)]
pub struct Statement {
    /// The caller, 0 to 63.
    pub caller: u8,
    /// What they state, and when.
    pub stated: Stated,
}

impl Statement {
    /// Some statement, for others to be put in its place.
    pub fn new() -> Statement {
        Statement {
            caller: 0,
            stated: some_statement(),
        }
    }
}
