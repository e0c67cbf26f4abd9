use desk_base::{Code, Minute};

// When and where a tour or other service ended.
#[derive(Clone, Copy)]
pub(crate) struct End {
    pub at: Minute,
    pub place: Code,
}
