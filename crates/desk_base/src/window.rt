ghost use Rattle.std.specs.Prelude.{◌≡◌, ℕ, ◌+◌, ◌≤◌, ◌<◌, ◌↔◌, IsTrue};
ghost use Rattle.std.specs.Option.{SomeIff};
ghost use Rattle.desk_base.specs.Window.{IsWindow, Holds, start_of, end_of, window_of};

use crate::{MONTHS_BEGIN, MONTHS_END, Minute, Month};
use std::marker::Model;

/// How many months a window may have.
pub const WINDOW_MONTHS: u8 = 24;

/// 1 to 24 calendar months, one after another, within the years 2000 to 2099.
#[derive(Clone, Copy, Debug, PartialEq, Eq, Hash)]
pub struct Window {
    first: Month,
    months: u8,
    start: Minute,
    end: Minute,
}

impl Model for Window {
    ghost use Rattle.desk_base.specs.Window.{WindowValue};
    ghost use Rattle.desk_base.specs.WindowInside.{window_in, KeepsWindow, window_inside, window_inside-window_in};

    ghost Value = { WindowValue };

    ghost view = { window_in };

    ghost invariant = { KeepsWindow };

    ghost inverse = { window_inside };

    ghost inverse_ok = { window_inside-window_in };
}

impl Window {
    /// The window of that many months from the first; `None` for none or more than 24, and where one of
    /// them lies outside the years 2000 to 2099.
    pub fn new(first: Month, months: u8) -> Option<Window>
        ensures { SomeIff result (IsWindow (window_of first months)) (window_of first months) }
    {
        let number = first.number();
        let in_years = number >= MONTHS_BEGIN && number + u16::from(months) <= MONTHS_END;
        if months >= 1 && months <= WINDOW_MONTHS && in_years {
            Some(Window {
                first,
                months,
                start: first.first(),
                end: first.after(months).first(),
            })
        } else {
            None
        }
    }

    /// The first month, of the years 2000 to 2099.
    pub fn first(&self) -> Month
        ensures { result ≡ self.now.first }
    {
        self.first
    }

    /// How many months there are, 1 to 24.
    pub fn months(&self) -> u8
        ensures value { result ≡ self.now.months }
        ensures range { IsWindow self.now }
    {
        self.months
    }

    /// The month at this index of the window, from 0.
    pub fn month(&self, index: u8) -> Month
        requires { index < self.now.months }
        ensures value { result ≡ self.now.first + index }
        ensures range { IsWindow self.now }
    {
        self.first.after(index)
    }

    /// Whether the minute lies in the window.
    pub fn holds(&self, minute: Minute) -> bool
        ensures lies { IsTrue result ↔ Holds self.now minute }
        ensures range { IsWindow self.now }
    {
        self.start() <= minute && minute < self.end()
    }

    /// The window's first minute.
    pub fn start(&self) -> Minute
        ensures value { result ≡ start_of self.now }
        ensures range { IsWindow self.now }
    {
        self.start
    }

    /// The first minute after the window.
    pub fn end(&self) -> Minute
        ensures { result ≡ end_of self.now }
    {
        self.end
    }
}
