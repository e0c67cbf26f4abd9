//! The nodes of a tree of slots, each with the lesser number of the two below it.
ghost use Rattle.std.specs.Prelude.{◌≡◌, ◌≢◌, ℕ, ◌+◌, ◌*◌, ◌≤◌, ◌<◌, length, slice_index, vec_capacity};
ghost use Rattle.slot_tree.specs.Nodes.{key, AreLeast, KeysStand};

use crate::Slot;

/// The number of an empty slot, above each minute's.
pub(crate) const EMPTY: u32 = 1 << 28;

/// The number that the lowest node of a slot has.
pub(crate) fn key_of(slot: &Option<Slot>) -> u32
    ensures { result ≡ key slot.now }
{
    match slot {
        Some(held) => held.ready.number() as u32,
        None => EMPTY,
    }
}

/// Gives a lowest node this number, and mends the nodes above it.
pub(crate) fn write(nodes: &mut Vec<u32>, at: usize, number: u32)
    requires lowest { length nodes.old.items ≤ 2 * at }
    requires within { at < length nodes.old.items }
    requires even { (half : ℕ) × (length nodes.old.items ≡ 2 * half) }
    requires least { AreLeast nodes.old.items }
    ensures length { length nodes.new.items ≡ length nodes.old.items }
    ensures least { AreLeast nodes.new.items }
    ensures written { slice_index nodes.new.items at ≡ number }
    ensures others { (n : ℕ) → length nodes.old.items ≤ 2 * n → n ≢ at
        → slice_index nodes.new.items n ≡ slice_index nodes.old.items n }
    ensures room { vec_capacity nodes.new ≡ vec_capacity nodes.old }
{
    nodes[at] = number;
    let mut i = at;
    while i > 1 {
        i /= 2;
        let left = nodes[2 * i];
        let right = nodes[2 * i + 1];
        let lesser = left.min(right);
        if nodes[i] == lesser {
            return;
        }
        nodes[i] = lesser;
    }
}

/// Gives the lowest nodes the numbers of the slots.
pub(crate) fn fill(nodes: &mut Vec<u32>, slots: &[Option<Slot>])
    requires { length nodes.old.items ≡ 2 * length slots.now }
    ensures length { length nodes.new.items ≡ length nodes.old.items }
    ensures keys { KeysStand slots.now nodes.new.items }
    ensures room { vec_capacity nodes.new ≡ vec_capacity nodes.old }
{
    let first = slots.len();
    for i in 0..first {
        nodes[first + i] = key_of(&slots[i]);
    }
}

/// Gives each node above the lowest the lesser number of its two.
pub(crate) fn mend(nodes: &mut Vec<u32>)
    requires { (half : ℕ) × (length nodes.old.items ≡ 2 * half) }
    ensures length { length nodes.new.items ≡ length nodes.old.items }
    ensures least { AreLeast nodes.new.items }
    ensures lowest { (n : ℕ) → length nodes.old.items ≤ 2 * n
        → slice_index nodes.new.items n ≡ slice_index nodes.old.items n }
    ensures room { vec_capacity nodes.new ≡ vec_capacity nodes.old }
{
    let mut i = nodes.len() / 2;
    while i > 1 {
        i -= 1;
        let left = nodes[2 * i];
        let right = nodes[2 * i + 1];
        nodes[i] = left.min(right);
    }
}
