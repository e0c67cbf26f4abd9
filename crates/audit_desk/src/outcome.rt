use desk_base::Minute;
use desk_model::Reply;

/// What the desk answered: when it took a command, and its reply.
#[derive(Clone, Copy, Debug, PartialEq, Eq)]
pub struct Outcome {
    /// When the desk took the command.
    pub moment: Minute,
    /// What it answered.
    pub reply: Reply,
}
