ghost use Rattle.std.specs.Prelude.{◌≡◌, ℕ, ◌≤◌, List, IfOk, IfErr, IsErrOf, vec_len};
ghost use Rattle.std.specs.declared.option.Option.{Option};
ghost use Rattle.desk_io.specs.Faults.{Rose};
ghost use Rattle.journal_device.specs.Device.{Leaves, Tells};

use crate::Device;
use desk_io::InputFault;
use std::alloc::Global;

/// A device as a run finds it, maybe with a journal on it: what is there is read, and then the run goes on with it.
pub trait Found: Device {
    /// The bytes that are there, where it tells them.
    ghost there: { Self → Option (List ℕ) };

    /// All bytes that are there, at most `limit`. They are asked for once, before anything is appended.
    fn read_all(&mut self, alloc: Global, limit: usize) -> Result<Vec<u8>, InputFault>
        ensures bounded { IfOk result (λ text. vec_len text ≤ limit) }
        ensures whole { IfOk result (λ text. Tells (there self.new) text.items) }
        ensures same { there self.new ≡ there self.old }
        ensures read_fault { IsErrOf result InputFault.ReadFault → Rose (Self.faults self.old) (Self.faults self.new) }
        ensures no_fault { ¬ IsErrOf result InputFault.ReadFault → Self.faults self.new ≡ Self.faults self.old }
        ensures faults_grow { Self.faults self.old ≤ Self.faults self.new };

    /// Goes on behind its first `len` bytes: those behind them are taken away for good, and what is left is kept. At a fault it is given
    /// back as it is then.
    fn go_on(self, len: u64) -> Result<Self, Self>
        ensures left { IfOk result (λ device. Leaves (there self) (Self.written device) len) }
        ensures kept { IfOk result (λ device. Self.kept device ≡ Self.written device) }
        ensures no_fault { IfOk result (λ device. Self.faults device ≡ Self.faults self) }
        ensures cause { IfErr result (λ device. Rose (Self.faults self) (Self.faults device)) };
}
