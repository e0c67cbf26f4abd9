use desk_base::PersonNo;

/// Which records of tours are told of a journal.
#[derive(Clone, Copy)]
pub enum TourForm {
    /// Those of this person's tours that have ended, 49 CFR 228.11.
    Record(PersonNo),
    /// Of all persons, those of tours with more than twelve hours on duty and in limbo, 49 USC 21103(c)(4), or more on duty than
    /// they may have.
    Excess,
}
