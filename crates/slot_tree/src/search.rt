//! The search of a tree's nodes for the first slot that is ready. Whoever reads a node there takes a step.
ghost use Rattle.std.specs.Prelude.{◌≡◌, ℕ, ◌+◌, ◌*◌, ◌^◌, ◌≤◌, ◌<◌, ◌%◌, true, false, length, slice_index};
ghost use Rattle.slot_tree.specs.Nodes.{AreLeast, FindsBelow};

use crate::Steps;
use crate::counted_nodes::CountedNodes;
use std::sync::ledger::Ledger;

// The first of the lowest nodes below one that has no more than m, where that one has no more.
fn descend<L: Ledger>(
    nodes: &CountedNodes,
    height: u32,
    at: usize,
    m: u32,
    steps: &mut Steps<L>,
) -> usize
    requires few { length nodes.now ≤ 2_048 }
    requires node { 1 ≤ at }
    requires within { (at + 1) * 2 ^ height ≤ length nodes.now }
    requires least { AreLeast nodes.now }
    requires below { slice_index nodes.now at ≤ m }
    ensures from { at * 2 ^ height ≤ result }
    ensures to { result < (at + 1) * 2 ^ height }
    ensures below { slice_index nodes.now result ≤ m }
    ensures first { (a : ℕ) → at * 2 ^ height ≤ a → a < result → m < slice_index nodes.now a }
    ensures cost { steps.new ≤ steps.old + height }
    ensures counted { steps.old ≤ steps.new }
{
    let mut i = at;
    let mut left = height;
    while left > 0 {
        left -= 1;
        i = 2 * i;
        if nodes.read(i, steps) > m {
            i += 1;
        }
    }
    i
}

// Whether a node is the left one of two, and the right one has no more than m.
fn goes_right<L: Ledger>(nodes: &CountedNodes, i: usize, m: u32, steps: &mut Steps<L>) -> bool
    requires few { length nodes.now ≤ 2_048 }
    requires right { i % 2 ≡ 0 → i + 1 < length nodes.now }
    ensures left { result ≡ true → i % 2 ≡ 0 }
    ensures below { result ≡ true → slice_index nodes.now (i + 1) ≤ m }
    ensures above { result ≡ false → i % 2 ≡ 0 → m < slice_index nodes.now (i + 1) }
    ensures cost { steps.new ≤ steps.old + 1 }
    ensures counted { steps.old ≤ steps.new }
{
    i % 2 == 0 && nodes.read(i + 1, steps) <= m
}

/// The first of the lowest nodes, from one of them on, that has no more than m.
pub(crate) fn first_below<L: Ledger>(
    nodes: &CountedNodes,
    height: u32,
    from: usize,
    m: u32,
    steps: &mut Steps<L>,
) -> Option<usize>
    requires few { length nodes.now ≤ 2_048 }
    requires long { length nodes.now ≡ 2 * 2 ^ height }
    requires lowest { 2 ^ height ≤ from }
    requires within { from < length nodes.now }
    requires least { AreLeast nodes.now }
    ensures found { FindsBelow nodes.now from m result }
    ensures cost { steps.new ≤ steps.old + 2 * height + 1 }
    ensures some { steps.old < steps.new }
{
    if nodes.read(from, steps) <= m {
        return Some(from);
    }
    let mut i = from;
    for t in 0..height {
        if goes_right(nodes, i, m, steps) {
            return Some(descend(nodes, t, i + 1, m, steps));
        }
        i /= 2;
    }
    None
}
