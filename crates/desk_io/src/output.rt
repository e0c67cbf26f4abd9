ghost use Rattle.std.specs.Prelude.{◌≡◌, ◌≤◌};
ghost use Rattle.std.specs.Bool.{OnTrue, OnFalse};
ghost use Rattle.std.specs.Io.KnownBytes.{Appends};
ghost use Rattle.desk_io.specs.Faults.{Rose};
ghost use Rattle.desk_io.specs.Giving.{AddsFront};

use crate::{Giving, Sink};

/// Puts all the bytes into the sink, a piece at a time, and says whether it took them all.
/// It stops at the first fault. It takes no memory.
pub fn put_all<K: Sink>(sink: &mut K, bytes: &[u8]) -> bool
    ensures all { OnTrue result (Appends (K.held sink.old) (K.held sink.new) bytes.now) }
    ensures front { OnFalse result (AddsFront (K.held sink.old) (K.held sink.new) bytes.now) }
    ensures faults_grow { K.faults sink.old ≤ K.faults sink.new }
    ensures cause { OnFalse result (Rose (K.faults sink.old) (K.faults sink.new)) }
    ensures no_fault { OnTrue result (K.faults sink.new ≡ K.faults sink.old) }
{
    let mut at = 0;
    while at < bytes.len() {
        match sink.write(&bytes[at..]) {
            Giving::Took(count) => at += count,
            Giving::Failed => return false,
        }
    }
    true
}
