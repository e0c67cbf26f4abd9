use desk_base::{PersonNo, VacNo};

/// What is written of a day file.
#[derive(Clone, Copy)]
pub enum DayForm {
    /// The journal of its replay.
    Replay,
    /// The tally of its replay.
    Tally,
    /// The journal of all commands but the last, and what would be answered to those.
    Forecast {
        /// How many of the last commands are only supposed; all where there are fewer.
        supposed: u32,
    },
    /// From when on nothing bars a person from a vacancy, as things stand after all commands.
    When {
        /// The vacancy.
        vac: VacNo,
        /// The person.
        person: PersonNo,
    },
}
