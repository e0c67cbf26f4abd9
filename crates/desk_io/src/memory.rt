//! What the source and the sink in memory share.
ghost use Rattle.std.specs.Prelude.{◌≡◌, ◌≤◌, ◌+◌, ◌==◌, ◌++◌, length, take, vec_len, vec_capacity};
ghost use Rattle.std.specs.List.{list_any};

/// Whether the call is among those that fail.
pub(crate) fn is_listed(failing: &[u64], call: u64) -> bool
    ensures { result ≡ list_any (λ n. n == call) failing.now }
{
    failing.iter().any(|number| *number == call)
}

/// Copies the first `count` bytes of `from` to the front of `into`.
pub(crate) fn copy_front(into: &mut [u8], from: &[u8], count: usize)
    requires into_room { count ≤ length into.old }
    requires from_has { count ≤ length from.now }
    ensures front { take count into.new ≡ take count from.now }
{
    into[..count].copy_from_slice(&from[..count]);
}

/// Appends the first `count` bytes of `from`, for which there is memory.
pub(crate) fn push_front(bytes: &mut Vec<u8>, from: &[u8], count: usize)
    requires room { vec_len bytes.old + count ≤ vec_capacity bytes.old }
    requires from_has { count ≤ length from.now }
    ensures items { bytes.new.items ≡ bytes.old.items ++ take count from.now }
    ensures len { vec_len bytes.new ≡ vec_len bytes.old + count }
    ensures capacity { vec_capacity bytes.new ≡ vec_capacity bytes.old }
{
    for byte in &from[..count] {
        bytes.push_reserved(*byte);
    }
}
