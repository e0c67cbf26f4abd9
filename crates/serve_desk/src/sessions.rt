/// By which sessions callers are served.
#[derive(Clone, Copy, Debug, PartialEq, Eq)]
pub enum Sessions {
    /// Each line is a command.
    WithoutLooks,
    /// A line may also ask for a look at a board, or make a crew call.
    WithLooks,
}
