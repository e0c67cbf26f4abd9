ghost use Rattle.std.specs.Prelude.{◌≡◌, ◌≢◌, ℕ, ◌≤◌, List, length};
ghost use Rattle.std.specs.declared.option.Option.{Option};
ghost use Rattle.desk_io.specs.Faults.{Rose};
ghost use Rattle.desk_io.specs.Taking.{TakesPiece, Moves};

use crate::Taking;

/// Bytes that come a piece at a time. Any call may fail, and the next may still succeed.
pub trait Source {
    /// The bytes still to come, where the source tells them.
    ghost left: { Self → Option (List ℕ) };

    /// How many faults it has had. The count starts at 0 and stops at 2^64 - 1.
    ghost faults: { Self → ℕ };

    /// Moves the next bytes to the front of `into`, as many as it likes, but at least one where there is room.
    fn read(&mut self, into: &mut [u8]) -> Taking
        ensures piece { TakesPiece result (length into.new) }
        ensures moves { Moves (left self.old) (left self.new) result into.new }
        ensures faults_grow { faults self.old ≤ faults self.new }
        ensures cause { result ≡ Taking.Failed → Rose (faults self.old) (faults self.new) }
        ensures no_fault { result ≢ Taking.Failed → faults self.new ≡ faults self.old };
}
