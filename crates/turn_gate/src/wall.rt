ghost use base.Fml.{ftrue};
ghost use Rattle.std.specs.Coded.{coded_option};
ghost use Rattle.logbook.specs.Pages.{book_coded};
ghost use Rattle.desk_model.specs.histories.Mark.{Mark};

use std::marker::Model;

/// Which wall of windows shows a book's entries, as contracts see it. No value of it is made.
pub struct Wall {
    pub ghost mark: { Mark } by { coded_option book_coded },
}

impl Model for Wall {
    ghost also_owns = { λ _. ftrue };
}
