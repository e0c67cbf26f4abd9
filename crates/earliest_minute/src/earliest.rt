use denial_rules::Bar;
use desk_base::Minute;

/// From when on nothing bars a person from a vacancy, as things stand, however the vacancy itself stands.
#[derive(Clone, Copy, Debug, PartialEq, Eq)]
pub enum Earliest {
    /// The vacancy was never made.
    UnknownVacancy,
    /// Nobody has the number.
    UnknownPerson,
    /// The report of the vacancy, which this keeps, is before the last moment.
    Lapsed(Minute),
    /// The person is on no board of the vacancy's chain.
    NotListed,
    /// This is the first minute, from the last moment to the report, at which nothing bars the person. By
    /// `a_bar_that_is_gone_stays_gone` nothing does from then on.
    Clear(Minute),
    /// Something bars the person at each minute up to the report; at the report it is this.
    Barred(Bar),
}
