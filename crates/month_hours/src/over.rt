use desk_base::Month;

/// A month with the total that passes its limit, in minutes.
#[derive(Clone, Copy, Debug, PartialEq, Eq)]
pub struct Over {
    pub month: Month,
    pub total: u32,
}
