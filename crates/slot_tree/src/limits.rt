/// How many slots a tree may have.
pub const SLOT_LIMIT: u32 = 1_024;
