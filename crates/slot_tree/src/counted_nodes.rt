ghost use Rattle.std.specs.Prelude.{◌≡◌, ◌+◌, ◌<◌, ◌≤◌, length, slice_index};

use crate::Steps;
use std::marker::Model;
use std::sync::ledger::Ledger;

/// The nodes of a tree, as a search has them: whoever reads one takes a step, since there is no other way to it.
#[derive(Drop)]
pub(crate) struct CountedNodes<'a> {
    nodes: &'a [u32],
}

impl<'a> Model for CountedNodes<'a> {
    ghost use Rattle.std.specs.Prelude.{ℕ, ◌≤◌, List, length};

    ghost Value = { List ℕ };

    ghost view = { λ s. s.nodes.now };

    ghost invariant = { λ s. length s.nodes.now ≤ 2_048 };
}

impl<'a> CountedNodes<'a> {
    /// These nodes, 2,048 at most, to be searched.
    pub fn new(nodes: &'a [u32]) -> CountedNodes<'a>
        requires { length nodes.now ≤ 2_048 }
        ensures { result ≡ nodes.now }
    {
        CountedNodes { nodes }
    }

    /// The number of a node.
    pub fn read<L: Ledger>(&self, i: usize, steps: &mut Steps<L>) -> u32
        requires { i < length self.now }
        ensures value { result ≡ slice_index self.now i }
        ensures cost { steps.new ≡ steps.old + 1 }
    {
        let nodes = self.nodes;
        steps.tick();
        nodes[i]
    }
}
