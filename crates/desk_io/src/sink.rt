ghost use Rattle.std.specs.Prelude.{◌≡◌, ◌≢◌, ℕ, ◌≤◌, List, length};
ghost use Rattle.std.specs.declared.option.Option.{Option};
ghost use Rattle.desk_io.specs.Faults.{Rose};
ghost use Rattle.desk_io.specs.Giving.{TakesPiece, Adds};

use crate::Giving;

/// Where bytes go, a piece at a time. Any call may fail, and the next may still succeed.
pub trait Sink {
    /// The bytes taken, where the sink tells them.
    ghost held: { Self → Option (List ℕ) };

    /// How many faults it has had. The count starts at 0 and stops at 2^64 - 1.
    ghost faults: { Self → ℕ };

    /// Takes bytes from the front of `from`, as many as it likes, but at least one of a piece that is not empty.
    fn write(&mut self, from: &[u8]) -> Giving
        ensures piece { TakesPiece result (length from.now) }
        ensures adds { Adds (held self.old) (held self.new) result from.now }
        ensures faults_grow { faults self.old ≤ faults self.new }
        ensures cause { result ≡ Giving.Failed → Rose (faults self.old) (faults self.new) }
        ensures no_fault { result ≢ Giving.Failed → faults self.new ≡ faults self.old };
}
