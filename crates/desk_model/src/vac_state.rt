use desk_base::PersonNo;

/// How a vacancy stands.
#[derive(Clone, Copy, Debug, PartialEq, Eq)]
pub enum VacState {
    /// Nobody has it, and it is on offer to nobody.
    Vacant,
    /// It is on offer to this person.
    OnOffer(PersonNo),
    /// This person has accepted it.
    Taken(PersonNo),
    /// This person has begun it.
    Begun(PersonNo),
    /// It was annulled.
    Annulled,
}
