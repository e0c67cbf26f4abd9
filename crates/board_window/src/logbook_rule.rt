//! The logbook that a wall's list is kept in.
use desk_model::Entry;
use logbook::{Gain, Plain, Play, Rule, Word};

/// The logbook's rule.
pub(crate) struct Law;

impl Rule<Entry, u64> for Law {
    ghost use Rattle.std.specs.Prelude.{[]};
    ghost use base.Fml.{ftrue};
    ghost use Rattle.board_window.specs.Lists.{IsKept};

    ghost holds = { λ cells log. IsKept cells log };

    ghost first = { [] };

    ghost hinted = { λ n log. Unit {0} };

    ghost shows = { λ log. [] };

    ghost keeps = { λ names log. ftrue };

    ghost moves = { λ ask before after answer. Unit {0} };
}

/// Who takes a step trades nothing.
pub(crate) struct Nothing;

impl Gain<Entry, u64> for Nothing {
    ghost use base.Fml.{ftrue};

    ghost after = { λ names about answer. ftrue };
}

/// A step that adds an entry.
pub(crate) struct Add;

impl Play<Entry, u64> for Add {
    ghost use Rattle.board_window.specs.Lists.{Adds};

    ghost then = { Adds };
}

impl Plain<Entry, Entry, u64> for Add {
    ghost use Rattle.std.specs.Prelude.{None};

    ghost ask = { λ entry. entry };

    ghost state = { λ entry. None };
}

/// The word that has the length of the list.
pub(crate) type Head = Word<Entry, u64, Law>;
