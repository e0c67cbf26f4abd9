use crate::Stage;
use desk_base::{Code, Minute};
use thiserror::Error;

/// Why an event is not allowed after those before it.
#[derive(Clone, Copy, Debug, PartialEq, Eq, Error)]
pub enum EventFault {
    /// Nothing of that kind follows this stage.
    #[error("nothing of that kind follows")]
    WrongStage(Stage),
    /// It is before the latest minute of the events so far, which is this one.
    #[error("before the latest minute")]
    Behind(Minute),
    /// The interim, of a kind that is limited to less than ten hours, has lasted these minutes.
    #[error("an interim of {0} minutes")]
    InterimTooLong(u32),
    /// The interim is at this place, and the final release during it names another.
    #[error("another place")]
    OtherPlace(Code),
}
