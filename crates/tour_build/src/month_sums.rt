ghost use Rattle.std.specs.Prelude.{◌≡◌, ℕ, ◌+◌, ◌-◌, ◌≤◌, ◌<◌, get_or};
ghost use Rattle.desk_base.specs.Window.{WindowValue};
ghost use Rattle.tour_build.specs.MonthSums.{AreSums, IsMore};

use crate::Interval;
use desk_base::{Month, WINDOW_MONTHS, Window};
use duty_events::shared;
use std::marker::Model;

/// Sums of minutes by the months of a window, in their order. A contract sees the list of the sums.
#[derive(Clone, Copy, Debug, PartialEq, Eq)]
pub struct MonthSums {
    sums: [u32; WINDOW_MONTHS as usize],
}

impl Model for MonthSums {
    ghost use Rattle.std.specs.Prelude.{ℕ, List};

    ghost Value = { List ℕ };

    ghost view = { λ s. s.sums };

    ghost inverse = { λ v. record { sums = v } };
}

impl MonthSums {
    /// No minutes in any month.
    pub fn none() -> MonthSums
        ensures { (window : WindowValue) (now : ℕ → ℕ → ℕ) → ((first many : ℕ) → now first many ≡ 0)
            → AreSums window now result }
    {
        MonthSums {
            sums: [0; WINDOW_MONTHS as usize],
        }
    }

    /// Adds the minutes of an interval to those of each month of the window. They must not be counted there yet.
    pub fn add(&mut self, window: &Window, interval: Interval)
        ensures { (was now : ℕ → ℕ → ℕ) → AreSums window.now was self.old
            → IsMore was now interval.from interval.to → AreSums window.now now self.new }
    {
        if interval.to <= interval.from {
            return;
        }
        let first = window.first().number();
        let begin = Month::of(interval.from);
        let low = begin.number().saturating_sub(first);
        let high = (Month::of_from(interval.to, begin).number() + 1).saturating_sub(first);
        for index in low..high.min(u16::from(window.months())) {
            let month = window.month(index as u8);
            let minutes = shared(
                interval.from.number(),
                interval.to.number(),
                month.first().number(),
                month.minutes(),
            );
            self.sums[usize::from(index)] = self.sums[usize::from(index)].saturating_add(minutes);
        }
    }

    /// How many minutes the month has, of the window.
    pub fn of(&self, window: &Window, month: Month) -> u32
        requires { window.now.first ≤ month }
        ensures { result ≡ get_or self.now (month - window.now.first) 0 }
    {
        let index = month.number() - window.first().number();
        self.sums.get(usize::from(index)).copied().unwrap_or(0)
    }
}
