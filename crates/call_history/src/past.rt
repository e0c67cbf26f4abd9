ghost use Rattle.std.specs.Prelude.{◌≡◌, ◌+◌, ◌<◌, ◌^◌, ◌∷◌, ◌++◌, [], length, IfSome, IfNone};
ghost use Rattle.call_history.specs.Past.{IsLast};

use crate::node::Node;
use desk_model::Entry;
use std::marker::Model;
use std::snapshot::Snapshot;

/// All entries of a history, fewer than 2^32, in their order. Only the last has bytes.
#[derive(Drop)]
pub(crate) struct Past {
    count: u32,
    last: Option<Node>,
}

impl Model for Past {
    ghost use Rattle.std.specs.Prelude.{◌≡◌, ◌<◌, IfSome, List, length};
    ghost use Rattle.desk_model.specs.statements.Entry.{EntryValue};
    ghost use Rattle.call_history.specs.Past.{all_of};

    ghost Value = { List EntryValue };

    ghost view = { λ p. all_of p.count p.last };

    ghost invariant = { λ p. (p.count ≡ length (all_of p.count p.last)) × IfSome p.last (λ node. 0 < p.count) };
}

impl Past {
    /// No entries.
    pub(crate) fn new() -> Past
        ensures { result ≡ [] }
    {
        Past {
            count: 0,
            last: None,
        }
    }

    /// Adds an entry as the last.
    pub(crate) fn add(&mut self, entry: Entry)
        requires { length self.old + 1 < 2 ^ 32 }
        ensures { self.new ≡ self.old ++ entry ∷ [] }
    {
        let before = Snapshot::of(&self.last);
        self.last = Some(Node { before, entry });
        self.count += 1;
    }

    /// How many there are.
    pub(crate) fn count(&self) -> u32
        ensures { result ≡ length self.now }
    {
        self.count
    }

    /// The last of them.
    pub(crate) fn last(&self) -> Option<&Entry>
        ensures some { IfSome result (λ entry. IsLast self.now entry.now) }
        ensures none { IfNone result (self.now ≡ []) }
    {
        match &self.last {
            Some(node) => Some(&node.entry),
            None => None,
        }
    }
}
