//! The slots of a tree, scanned.
ghost use Rattle.std.specs.Prelude.{◌≡◌, ℕ, ◌^◌, ◌≤◌, None, length};
ghost use Rattle.slot_tree.specs.Slots.{slot_at, filled_end};

use crate::Slot;

/// How many slots a tree of so many levels below the root has.
pub(crate) fn slot_count(height: u32) -> usize
    requires { height ≤ 10 }
    ensures { result ≡ 2 ^ height }
{
    1 << height
}

/// How many slots there are up to the last filled one, where none is filled from one on.
pub(crate) fn end_before(slots: &[Option<Slot>], from: usize) -> usize
    requires within { from ≤ length slots.now }
    requires after { (s : ℕ) → from ≤ s → slot_at slots.now s ≡ None }
    ensures { result ≡ filled_end slots.now }
{
    let mut end = from;
    while end > 0 && slots[end - 1].is_none() {
        end -= 1;
    }
    end
}
