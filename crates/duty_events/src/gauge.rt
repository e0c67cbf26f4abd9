ghost use Rattle.std.specs.Prelude.{◌≡◌, ℕ, ◌<◌, ◌≤◌, Bool, nat_le, max, ◌+◌, false};
ghost use Rattle.duty_events.specs.Gauge.{GaugeValue, Tells};
ghost use Rattle.duty_events.specs.Stretch.{has_stretch, Stretch};
ghost use Rattle.std.specs.Bool.{Decides};

use std::marker::Model;

/// The longest stretch of minutes of one kind, from one minute on up to one that moves on. It doesn't know the minutes:
/// whoever moves it on says whether those up to there are of the kind.
#[derive(Clone, Copy, Debug, PartialEq, Eq)]
pub struct Gauge {
    since: u64,
    longest: u64,
    until: u64,
}

/// The test finds a stretch of one minute or more just where there is one, and none where there is no room for it. It does
/// nothing: its clauses are the law.
pub fn a_stretch_is_found_where_there_is_one()
    ensures found { (asked : ℕ → Bool) (many from to : ℕ) → 0 < many
        → Decides (has_stretch asked many from to) (Stretch asked many from to) }
    ensures none { (asked : ℕ → Bool) (many from to : ℕ) → 0 < many → to < from + many
        → has_stretch asked many from to ≡ false }
{}

impl Gauge {
    /// A gauge of the minutes from one on, none of which it has looked at.
    pub fn new(from: u64) -> Gauge
        ensures until { result.until ≡ 0 }
        ensures tells { (asked : ℕ → Bool) → Tells asked from result }
    {
        Gauge {
            since: from,
            longest: 0,
            until: 0,
        }
    }

    /// A gauge of the minutes from one on, that was moved on to there.
    pub fn starting(since: u64) -> Gauge
        ensures until { result.until ≡ since }
        ensures tells { (asked : ℕ → Bool) → Tells asked since result }
    {
        Gauge {
            since,
            longest: 0,
            until: since,
        }
    }

    /// The gauge after looking at the minutes up to one, that are all of the kind, or none of them. It stays where it
    /// has looked so far already.
    pub fn pass(self, to: u64, are_asked: bool) -> Gauge
        ensures until { result.until ≡ max self.until to }
        ensures tells { (was asked : ℕ → Bool) (from : ℕ) → Tells was from self
            → ((t : ℕ) → t < self.until → asked t ≡ was t)
            → ((t : ℕ) → self.until ≤ t → t < to → asked t ≡ are_asked)
            → Tells asked from result }
    {
        if to <= self.until {
            self
        } else if are_asked {
            let so_far = to.saturating_sub(self.since);
            Gauge {
                since: self.since,
                longest: self.longest.max(so_far),
                until: to,
            }
        } else {
            Gauge {
                since: self.since.max(to),
                longest: self.longest,
                until: to,
            }
        }
    }

    /// How many minutes the longest stretch has, 0 if there is none: it has so many exactly where a stretch of so many lies
    /// between the first minute and the one that the gauge was moved on to.
    pub fn longest(self) -> u64
        ensures value { result ≡ self.longest }
        ensures stretch { (asked : ℕ → Bool) (from many : ℕ) → Tells asked from self → 0 < many
            → nat_le many result ≡ has_stretch asked many from self.until }
    {
        self.longest
    }
}

impl Model for Gauge {
    ghost use Rattle.duty_events.specs.Gauge.{GaugeValue};

    ghost Value = { GaugeValue };

    ghost view = { λ g. record { since = g.since; longest = g.longest; until = g.until } };

    ghost inverse = { λ v. record { since = v.since; longest = v.longest; until = v.until } };
}
