//! Cases that are asked of the scans and of a clock.
use crate::asks::Case;
use crate::{clock, scans};
use std::alloc::Global;

/// The place of the first case, and that of the question in it, that the scans answer otherwise; or else, that a clock does
/// with a window of so many months.
pub(crate) fn wrong(
    alloc: Global,
    first: &[u8],
    months: u8,
    cases: &[Case],
) -> Option<(usize, usize)> {
    let by_the_scans = scans::wrong(alloc, cases);
    if by_the_scans.is_some() {
        return by_the_scans;
    }
    clock::wrong(alloc, first, months, cases)
}
