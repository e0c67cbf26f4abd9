ghost use base.Fml.{ftrue};
ghost use Rattle.logbook.specs.Pages.{Book, book_coded};

use desk_model::Opening;
use std::marker::Model;

/// In which logbook a wall's list is kept, as contracts see it. No value of it is made.
pub struct Logbook {
    pub ghost book: { Book } by { book_coded },
}

impl Model for Logbook {
    ghost also_owns = { λ _. ftrue };
}

/// Which wall of windows it is, and how its desk was opened. No value of it is made.
pub struct WallName {
    pub opening: Opening,
    pub logbook: Logbook,
}
