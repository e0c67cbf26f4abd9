ghost use Rattle.std.specs.Prelude.{◌≡◌, ◌<◌, ◌^◌};

use desk_base::Minute;

// The minute of that number, or another where there is none.
pub(crate) fn minute_or(number: u64, other: Minute) -> Minute
    ensures { number < 2 ^ 28 → result ≡ number }
{
    Minute::new(number).unwrap_or(other)
}
