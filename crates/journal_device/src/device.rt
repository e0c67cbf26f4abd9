ghost use Rattle.std.specs.Prelude.{◌≡◌, ℕ, ◌≤◌, List};
ghost use Rattle.std.specs.Bool.{OnTrue, OnFalse};
ghost use Rattle.std.specs.declared.option.Option.{Option};
ghost use Rattle.std.specs.Io.KnownBytes.{append_known};
ghost use Rattle.desk_io.specs.Faults.{Rose};
ghost use Rattle.journal_device.specs.Device.{Begins, AddsSome};

/// Where a journal is kept: bytes are appended, and a sync has them kept. Any call may fail, and the next may still succeed. Nothing
/// takes bytes away, so what is kept stays kept.
pub trait Device: Drop {
    /// All the bytes that it was given and took, where the device tells them.
    ghost written: { Self → Option (List ℕ) };

    /// The bytes with which what is found begins, whenever the run stops from now on; where the device tells them.
    ghost kept: { Self → Option (List ℕ) };

    /// How many faults it has had. The count starts at 0 and stops at 2^64 - 1.
    ghost faults: { Self → ℕ };

    /// Appends the bytes, and says whether it took them all. At a fault it may have taken some from their front.
    fn append(&mut self, bytes: &[u8]) -> bool
        ensures all { OnTrue result (written self.new ≡ append_known (written self.old) bytes.now) }
        ensures front { OnFalse result (AddsSome (written self.old) (written self.new) bytes.now) }
        ensures kept { kept self.new ≡ kept self.old }
        ensures faults_grow { faults self.old ≤ faults self.new }
        ensures cause { OnFalse result (Rose (faults self.old) (faults self.new)) }
        ensures no_fault { OnTrue result (faults self.new ≡ faults self.old) };

    /// Has all that was appended kept, and says whether it is. At a fault no more is kept than was.
    fn sync(&mut self) -> bool
        ensures kept { OnTrue result (kept self.new ≡ written self.old) }
        ensures same { OnFalse result (kept self.new ≡ kept self.old) }
        ensures written { written self.new ≡ written self.old }
        ensures faults_grow { faults self.old ≤ faults self.new }
        ensures cause { OnFalse result (Rose (faults self.old) (faults self.new)) }
        ensures no_fault { OnTrue result (faults self.new ≡ faults self.old) };

    /// What is kept begins what is written.
    ghost begins: { (device : Self) → Begins (kept device) (written device) };
}
