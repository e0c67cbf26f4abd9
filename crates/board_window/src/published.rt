//! The rule of what a wall publishes. A reader, and the writer, knows which wall it is of, if anything.
use crate::shelf::Shelf;
use crate::wall_name::WallName;
use atomic_table::{Join, Split};
use crossbeam_utils::rule::{Outcome, Protocol};

/// What is published shows the boards of its list, and is of the wall that is known.
pub(crate) struct Published;

impl Protocol<Shelf, Option<WallName>> for Published {
    ghost use Rattle.std.specs.Prelude.{None};
    ghost use Rattle.board_window.specs.Shelves.{IsPublished};

    ghost holds = { IsPublished };

    ghost first = { None };
}

/// The writer publishes.
pub(crate) struct Publish;

impl Outcome<Shelf, Option<WallName>> for Publish {
    ghost use Rattle.board_window.specs.Shelves.{Publishes};

    ghost then = { Publishes };
}

/// A reader takes what is published.
pub(crate) struct Enter;

impl Outcome<Shelf, Option<WallName>> for Enter {
    ghost use Rattle.board_window.specs.Shelves.{Enters};

    ghost then = { Enters };
}

/// The writer tells what it knows.
pub(crate) struct Tell;

impl Split<Option<WallName>> for Tell {
    ghost left = { λ known. known };

    ghost right = { λ known. known };
}

/// A reader that knows nothing learns what it is told.
pub(crate) struct Learn;

impl Join<Option<WallName>> for Learn {
    ghost use Rattle.std.specs.Prelude.{None};

    ghost both = { λ mine told. told };

    ghost spent = { None };
}
