ghost use Rattle.std.specs.Prelude.{◌≡◌, ◌≤◌, ◌<◌, ◌++◌, length, take, if◌then◌else◌, false, IfOk, IfErr, IsOk, IsErrOf, IsTrue, ◌↔◌, vec_len};
ghost use Rattle.std.specs.Bool.{OnTrue, OnFalse};
ghost use Rattle.desk_io.specs.Faults.{Rose, one_more};
ghost use Rattle.journal_device.specs.Device.{faults_after};
ghost use mathlib.Core.List.{IsPrefix};

use crate::{Device, Found};
use desk_base::NoMemory;
use desk_io::InputFault;
use std::alloc::Global;
use std::marker::Model;

/// A device in memory, which fails where it has no room left and at the calls that it is told to fail at.
#[derive(Debug, Drop)]
pub struct MemoryDevice {
    bytes: Vec<u8>,
    kept: usize,
    room: usize,
    torn: usize,
    failing: Vec<u64>,
    calls: u64,
    faults: u64,
}

impl Model for MemoryDevice {
    ghost use Rattle.std.specs.Prelude.{◌≤◌, vec_len, vec_capacity};
    ghost use Rattle.journal_device.specs.MemoryDevice.{Disk, HasRoom};

    ghost Value = { Disk };

    ghost view = { λ s. record {
      held = s.bytes.items;
      kept = s.kept;
      room = s.room;
      torn = s.torn;
      failing = s.failing.items;
      calls = s.calls;
      faults = s.faults;
    } };

    ghost invariant = { λ s. HasRoom s.kept (vec_len s.bytes) s.room (vec_capacity s.bytes) };
}

impl MemoryDevice {
    ghost use Rattle.journal_device.specs.MemoryDevice.{new_disk, kept_of, left_of, fails};

    /// An empty device with room for so many bytes. It fails at the calls whose numbers, from 1, are in `failing`: of an append that
    /// fails it still takes `torn` bytes at most.
    pub fn new(
        alloc: Global,
        room: usize,
        torn: usize,
        failing: Vec<u64>,
    ) -> Result<MemoryDevice, NoMemory>
        ensures { IfOk result (λ device. device ≡ new_disk room torn failing.items) }
    {
        Ok(MemoryDevice {
            bytes: Vec::with_capacity(alloc, room)?,
            kept: 0,
            room,
            torn,
            failing,
            calls: 0,
            faults: 0,
        })
    }

    /// A device as a run finds it, with these bytes, all of which are kept, and room for so many in all, but not fewer than these; it fails as a
    /// new one does.
    pub fn holding(
        alloc: Global,
        bytes: &[u8],
        room: usize,
        torn: usize,
        failing: Vec<u64>,
    ) -> Result<MemoryDevice, NoMemory>
        requires { length bytes.now ≤ room }
        ensures { IfOk result (λ device. device ≡ record (new_disk room torn failing.items) {
          held = bytes.now;
          kept = length bytes.now;
        }) }
    {
        let mut device = MemoryDevice::new(alloc, room, torn, failing)?;
        let taken = device.bytes.extend_from_slice(bytes);
        prove!(taken.is_ok());
        device.kept = bytes.len();
        Ok(device)
    }

    /// The bytes that were written.
    pub fn held(&self) -> &[u8]
        ensures { result.now ≡ self.now.held }
    {
        &self.bytes
    }

    /// What a stop leaves now, where so many of the bytes are there that were not synced, or all of them.
    pub fn left(&self, unsynced: usize) -> &[u8]
        ensures exact { result.now ≡ left_of self.now unsynced }

        // It begins with what is kept, and begins what was written.
        ensures kept { IsPrefix (kept_of self.now) result.now }
        ensures written { IsPrefix result.now self.now.held }
    {
        let more = unsynced.min(self.bytes.len() - self.kept);
        &self.bytes[..self.kept + more]
    }

    // Counts a call, which is done where it is not listed and the device is able to; else a fault.
    fn count_call(&mut self, able: bool) -> bool
        ensures answer { result ≡ (if fails self.old then false else able) }
        ensures after { self.new ≡ record self.old {
          calls = one_more self.old.calls;
          faults = faults_after result self.old.faults;
        } }
        ensures faults_grow { self.old.faults ≤ self.new.faults }
    {
        self.calls = self.calls.saturating_add(1);
        if !able || self.failing.contains(&self.calls) {
            self.faults = self.faults.saturating_add(1);
            return false;
        }
        true
    }
}

impl Device for MemoryDevice {
    ghost use Rattle.std.specs.Prelude.{Some, drop};
    ghost use Rattle.std.proofs.lemmas.List.{take-append-drop};
    ghost use Rattle.std.specs.Io.KnownBytes.{append_known};
    ghost use Rattle.journal_device.specs.Device.{AddsSome};
    ghost use Rattle.journal_device.specs.MemoryDevice.{kept_of, append_answer, after_append, sync_answer, after_sync};

    ghost written = { λ s. Some s.held };

    ghost kept = { λ s. Some (kept_of s) };

    ghost faults = { λ s. s.faults };

    ghost begins = { λ s. (drop s.kept s.held, take-append-drop s.kept s.held) };

    fn append(&mut self, bytes: &[u8]) -> bool
        ensures all { OnTrue result (Some self.new.held ≡ append_known (Some self.old.held) bytes.now) }
        ensures front { OnFalse result (AddsSome (Some self.old.held) (Some self.new.held) bytes.now) }
        ensures kept { Some (kept_of self.new) ≡ Some (kept_of self.old) }
        ensures faults_grow { self.old.faults ≤ self.new.faults }
        ensures cause { OnFalse result (Rose self.old.faults self.new.faults) }
        ensures no_fault { OnTrue result (self.new.faults ≡ self.old.faults) }

        ensures answer { result ≡ append_answer self.old (length bytes.now) }
        ensures after { self.new ≡ after_append self.old result bytes.now }
    {
        let room = self.room - self.bytes.len();
        let done = self.count_call(bytes.len() <= room);
        let count = if done {
            bytes.len()
        } else {
            self.torn.min(bytes.len()).min(room)
        };
        let added = self.bytes.extend_from_slice(&bytes[..count]);
        prove!(added.is_ok());
        done
    }

    fn sync(&mut self) -> bool
        ensures kept { OnTrue result (Some (kept_of self.new) ≡ Some self.old.held) }
        ensures same { OnFalse result (kept_of self.new ≡ kept_of self.old) }
        ensures written { self.new.held ≡ self.old.held }
        ensures faults_grow { self.old.faults ≤ self.new.faults }
        ensures cause { OnFalse result (Rose self.old.faults self.new.faults) }
        ensures no_fault { OnTrue result (self.new.faults ≡ self.old.faults) }

        ensures answer { result ≡ sync_answer self.old }
        ensures after { self.new ≡ after_sync self.old result }
    {
        let done = self.count_call(true);
        if done {
            self.kept = self.bytes.len();
        }
        done
    }
}

impl Found for MemoryDevice {
    ghost use Rattle.std.specs.Prelude.{Some};
    ghost use Rattle.journal_device.specs.MemoryDevice.{after_cut, cut_answer, kept_of};

    ghost there = { λ s. Some s.held };

    fn read_all(&mut self, alloc: Global, limit: usize) -> Result<Vec<u8>, InputFault>
        ensures bounded { IfOk result (λ text. vec_len text ≤ limit) }
        ensures whole { IfOk result (λ text. self.new.held ≡ text.items) }
        ensures same { self.new ≡ self.old }
        ensures never { ¬ IsErrOf result InputFault.ReadFault }
        ensures too_long { IsErrOf result InputFault.TooLong → limit < length self.old.held }
    {
        if limit < self.bytes.len() {
            return Err(InputFault::TooLong);
        }
        let mut text = Vec::new(alloc);
        text.extend_from_slice(&self.bytes)?;
        Ok(text)
    }

    fn go_on(self, len: u64) -> Result<MemoryDevice, MemoryDevice>
        ensures answer { IsOk result ↔ IsTrue (cut_answer self len) }
        ensures cut { IfOk result (λ device. (device ≡ after_cut self len) × (len ≤ length self.held)) }
        ensures cause { IfErr result (λ device. (Rose self.faults device.faults) × (device.held ≡ self.held)) }
    {
        let mut device = self;
        let there = device.bytes.len() as u64;
        if !device.count_call(len <= there) {
            return Err(device);
        }
        device.bytes.truncate(len as usize);
        device.kept = len as usize;
        Ok(device)
    }
}
