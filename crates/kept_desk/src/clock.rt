ghost use Rattle.std.specs.Prelude.{◌≡◌, ◌≤◌, ℕ, IfSome};
ghost use Rattle.std.specs.declared.option.Option.{Option};
ghost use Rattle.desk_base.specs.Minute.{IsInYears};
ghost use Rattle.desk_io.specs.Faults.{Rose};

use desk_base::Minute;

/// A clock that tells the desk's civil time.
pub trait Clock: Drop {
    /// The minute that it told last; none where it could not tell it.
    ghost minute: { Self → Option ℕ };

    /// How often it was asked. The count starts at 0 and stops at 2^64 - 1.
    ghost asked: { Self → ℕ };

    /// The minute that it is; `None` where that can't be told, or lies outside the years 2000 to 2099.
    fn now(&mut self) -> Option<Minute>
        ensures told { result ≡ minute self.new }
        ensures in_years { IfSome result IsInYears }
        ensures counted { Rose (asked self.old) (asked self.new) }
        ensures count_grows { asked self.old ≤ asked self.new };
}
