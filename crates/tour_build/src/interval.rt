ghost use Rattle.std.specs.Prelude.{◌≡◌, ◌-◌, ◌^◌};
ghost use Rattle.duty_events.specs.Minutes.{shared};

use desk_base::Minute;

/// The minutes from one on and before another; none where that is not behind it.
#[derive(Clone, Copy, Debug, PartialEq, Eq)]
pub struct Interval {
    pub from: Minute,
    pub to: Minute,
}

impl Interval {
    /// No minutes.
    pub const NONE: Interval = Interval {
        from: Minute::FIRST,
        to: Minute::FIRST,
    };

    /// How many minutes they are, below 2^28.
    pub fn count(self) -> u32
        ensures value { result ≡ self.to - self.from }
        ensures all { result ≡ shared self.from self.to 0 (2 ^ 28) }
    {
        self.to.number().saturating_sub(self.from.number()) as u32
    }
}
