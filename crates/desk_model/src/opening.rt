ghost use Rattle.std.specs.Prelude.{◌≡◌};
ghost use Rattle.std.specs.Option.{SomeIff};
ghost use Rattle.desk_base.specs.Minute.{IsInYears};
ghost use Rattle.desk_base.specs.Window.{IsWindow};
ghost use Rattle.desk_model.specs.statements.Opening.{IsOpening, opening_of};

use crate::Edition;
use desk_base::{Minute, Window};
use std::marker::Model;

/// How a desk is opened: its first minute, the window of months outside which it takes no command, how many minutes a
/// person has to answer an offer, and the edition of the rules.
#[derive(Clone, Copy, Debug, PartialEq, Eq, Hash)]
pub struct Opening {
    start: Minute,
    window: Window,
    answer: u8,
    edition: Edition,
}

impl Model for Opening {
    ghost use Rattle.desk_model.specs.statements.Opening.{OpeningValue, IsOpening, opening_of};

    ghost Value = { OpeningValue };

    ghost view = { λ o. opening_of o.start o.window o.answer o.edition };

    ghost invariant = { λ o. IsOpening (opening_of o.start o.window o.answer o.edition) };

    ghost inverse = { λ v. record {
      start = v.start;
      window = v.window;
      answer = v.answer;
      edition = v.edition;
    } };
}

impl Opening {
    /// An opening at a minute of the window, with 1 to 60 minutes to answer; `None` for anything else.
    pub fn new(start: Minute, window: Window, answer: u8, edition: Edition) -> Option<Opening>
        ensures { SomeIff result (IsOpening (opening_of start window answer edition))
            (opening_of start window answer edition) }
    {
        if window.holds(start) && answer >= 1 && answer <= 60 {
            Some(Opening {
                start,
                window,
                answer,
                edition,
            })
        } else {
            None
        }
    }

    /// The desk's first minute, which lies in the window.
    pub fn start(&self) -> Minute
        ensures value { result ≡ self.now.start }
        ensures in_years { IsInYears result }
    {
        self.start
    }

    /// The window of months.
    pub fn window(&self) -> Window
        ensures value { result ≡ self.now.window }
        ensures range { IsWindow result }
    {
        self.window
    }

    /// The minutes in which a person may answer an offer, 1 to 60.
    pub fn answer(&self) -> u8
        ensures value { result ≡ self.now.answer }
        ensures range { IsOpening self.now }
    {
        self.answer
    }

    /// The edition of the rules.
    pub fn edition(&self) -> Edition
        ensures { result ≡ self.now.edition }
    {
        self.edition
    }
}
