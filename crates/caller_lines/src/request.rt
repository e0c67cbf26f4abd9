use crate::Said;
use desk_base::{Code, Minute, VacNo};

/// What a caller said with one line, where a line may also ask for a look at a board or for a crew call.
#[derive(Clone, Copy, Debug)]
pub enum Request {
    /// Who stands at this position of the board, from 1, is asked.
    Look {
        board: Code,
        position: u16,
    },
    /// These two vacancies are to be called as one outcome, at this minute of the years 2000 to 2099.
    Crew {
        minute: Minute,
        first: VacNo,
        second: VacNo,
    },
    /// Anything else.
    Said(Said),
}
