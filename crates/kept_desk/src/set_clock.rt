ghost use Rattle.std.specs.Prelude.{◌≡◌, ◌≤◌, IfSome, drop};
ghost use Rattle.desk_base.specs.Minute.{IsInYears};
ghost use Rattle.desk_io.specs.Faults.{Rose};
ghost use Rattle.kept_desk.specs.SetClock.{told_of};

use crate::Clock;
use desk_base::Minute;
use std::marker::Model;

/// A clock that is set: it tells the minutes that it is given, one each time that it is asked, and behind them none.
#[derive(Drop)]
pub struct SetClock {
    minutes: Vec<Minute>,
    at: usize,
    told: Option<Minute>,
    asked: u64,
}

impl Model for SetClock {
    ghost use Rattle.std.specs.Prelude.{◌≤◌, drop, vec_len};
    ghost use Rattle.kept_desk.specs.SetClock.{Setting};

    ghost Value = { Setting };

    ghost view = { λ s. record { left = drop s.at s.minutes.items; told = s.told; asked = s.asked } };

    ghost invariant = { λ s. s.at ≤ vec_len s.minutes };
}

impl SetClock {
    /// A clock that was not asked yet.
    pub fn new(minutes: Vec<Minute>) -> SetClock
        ensures { result ≡ record { left = minutes.items; told = None; asked = 0 } }
    {
        SetClock {
            minutes,
            at: 0,
            told: None,
            asked: 0,
        }
    }
}

impl Clock for SetClock {
    ghost minute = { λ s. s.told };

    ghost asked = { λ s. s.asked };

    fn now(&mut self) -> Option<Minute>
        ensures told { result ≡ self.new.told }
        ensures in_years { IfSome result IsInYears }
        ensures counted { Rose self.old.asked self.new.asked }
        ensures count_grows { self.old.asked ≤ self.new.asked }

        ensures first { result ≡ told_of self.old.left }
        ensures left { self.new.left ≡ drop 1 self.old.left }
    {
        self.asked = self.asked.saturating_add(1);
        self.told = None;
        if let Some(minute) = self.minutes.get(self.at) {
            self.at += 1;
            if minute.is_in_years() {
                self.told = Some(*minute);
            }
        }
        self.told
    }
}
