ghost use Rattle.std.specs.Prelude.{◌≤◌, ◌<◌, ◌^◌, vec_capacity};

use crate::NoMemory;
use std::alloc::Global;

// As many hints are begun at once.
const PAGE: usize = 4_096;

/// At which index of some list, below 65,536, the one with a number may be found; of numbers that are 2^k apart all share one hint.
/// Nothing rests on them: whoever asks looks there, and elsewhere where another is there. Their memory is taken when they are made,
/// and is written to, 4,096 at a time, up to the last that is set.
#[derive(Debug, Drop)]
pub struct IndexHints {
    // How many there are, as a power of two, and the bits of a number that tell which is its own.
    bits: u32,
    mask: u32,
    indexes: Vec<u16>,
    ghost some: { 12 ≤ bits },
    ghost few: { bits ≤ 18 },
    ghost room: { 2 ^ bits ≤ vec_capacity indexes },
}

impl IndexHints {
    /// 2^k hints, k 12 to 18, none of which is set; `NoMemory` where there is none for them.
    pub fn new(alloc: Global, k: u32) -> Result<IndexHints, NoMemory>
        requires low { 12 ≤ k }
        requires high { k ≤ 18 }
    {
        Ok(IndexHints {
            bits: k,
            mask: (1 << k) - 1,
            indexes: Vec::with_capacity(alloc, 1 << k)?,
        })
    }

    // At which slot the hint of a number stands.
    fn slot_of(&self, number: u32) -> usize
        ensures { result < 2 ^ 32 }
    {
        (number & self.mask) as usize
    }

    /// The index to look at first.
    pub fn of(&self, number: u32) -> usize
        ensures { result < 65_536 }
    {
        match self.indexes.get(self.slot_of(number)) {
            Some(index) => usize::from(*index),
            None => 0,
        }
    }

    /// The one with the number was put there.
    pub fn set(&mut self, number: u32, index: usize) {
        let hint = self.slot_of(number);
        if self.indexes.len() <= hint {
            let many = (hint / PAGE + 1) * PAGE;
            let _filled = self.indexes.resize(many, 0);
        }
        if let Some(hint) = self.indexes.get_mut(hint) {
            *hint = u16::try_from(index).unwrap_or(0);
        }
    }

    /// The same ones; `NoMemory` where there is none for them.
    pub fn copy(&self, alloc: Global) -> Result<IndexHints, NoMemory> {
        let mut indexes = Vec::with_capacity(alloc, 1 << self.bits)?;
        indexes.extend_from_slice(&self.indexes)?;
        Ok(IndexHints {
            bits: self.bits,
            mask: self.mask,
            indexes,
        })
    }
}
