//! What each kind of step tells, and how notes are dealt and rejoined.
use crate::Lasting;
use crate::view::View;
use atomic_table::{Join, Play, Split};

/// A ticket is drawn.
pub(crate) struct Draw;

impl<B: Lasting> Play<Option<B>, View> for Draw {
    ghost use Rattle.turn_gate.specs.Steps.{drew};

    ghost then = { drew };
}

/// Whose ticket is served is found_served up; who has it has the book from then on.
pub(crate) struct FindServed;

impl<B: Lasting> Play<Option<B>, View> for FindServed {
    ghost use Rattle.turn_gate.specs.Told.{told};
    ghost use Rattle.turn_gate.specs.Steps.{found_served};

    ghost then = { found_served (told B.history B.room B.mark B.sure) };
}

/// The book is back, and the next ticket is served.
pub(crate) struct Pass;

impl<B: Lasting> Play<Option<B>, View> for Pass {
    ghost use Rattle.turn_gate.specs.Told.{told};
    ghost use Rattle.turn_gate.specs.Steps.{passed};

    ghost then = { passed (told B.history B.room B.mark B.sure) };
}

/// So many entries are told to be sure.
pub(crate) struct TellSure;

impl<B: Lasting> Play<Option<B>, View> for TellSure {
    ghost use Rattle.turn_gate.specs.Steps.{tells};

    ghost then = { tells };
}

/// How many are is heard.
pub(crate) struct HearSure;

impl<B: Lasting> Play<Option<B>, View> for HearSure {
    ghost use Rattle.turn_gate.specs.Steps.{heard_sure};

    ghost then = { heard_sure };
}

/// The first note goes to a seat of its own.
pub(crate) struct Deal;

impl Split<View> for Deal {
    ghost use Rattle.turn_gate.specs.Steps.{kept, dealt};

    ghost left = { kept };

    ghost right = { dealt };
}

/// The notes of two seats come together.
pub(crate) struct Rejoin;

impl Join<View> for Rejoin {
    ghost use Rattle.turn_gate.specs.Steps.{joined, spent};

    ghost both = { joined };

    ghost spent = { spent };
}
