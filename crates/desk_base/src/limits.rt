/// The highest number of a person or a vacancy; the lowest is 1.
pub const NUMBER_LIMIT: u32 = 9_999_999;
