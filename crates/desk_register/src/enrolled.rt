use crate::kept_person::KeptPerson;
use crate::person_index::PersonIndex;

/// An enrolled person: their index among all, and what is kept of them.
#[derive(Clone, Copy)]
pub struct Enrolled<'a> {
    pub index: PersonIndex,
    pub kept: &'a KeptPerson,
}
