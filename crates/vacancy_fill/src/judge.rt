ghost use Rattle.std.specs.Prelude.{◌≡◌, ℕ, Option};
ghost use Rattle.denial_rules.specs.declared.bar.Bar.{Bar};

use denial_rules::Bar;
use desk_base::PersonNo;

/// What bars persons from a vacancy at a moment.
pub trait Judge {
    // It bars each person as this function says.
    ghost judges: { Self → (ℕ → Option Bar) → Type 0 };

    /// The first bar that keeps a person from the vacancy; `None` where none does.
    fn bar(&self, person: PersonNo) -> Option<Bar>
        ensures { (barred : ℕ → Option Bar) → judges self.now barred → result ≡ barred person };
}
