use audit_desk::Verdict;
use desk_io::Status;

/// Why a desk was not opened.
#[derive(Drop)]
pub enum Refused<D> {
    /// The run ends so: the day file is none, or the journal has no room for a call of each caller, or memory was wanting.
    Ended(Status),
    /// What is on the device is no journal of a legal history: an audit finds this. It stays as it was.
    Found(Verdict),
    /// The device had a fault.
    Fault(D),
}
