//! Pairs of decimal digits, as dates and times have them.
ghost use Rattle.std.specs.Prelude.{◌≡◌, ◌<◌, ℕ, ◌∷◌, [], IfSome};
ghost use Rattle.desk_base.specs.Month.{two_digits};

/// The two digits of a number below 100.
pub(crate) fn digits_of(number: u8) -> [u8; 2]
    requires { number < 100 }
    ensures { result ≡ two_digits number }
{
    [b'0' + number / 10, b'0' + number % 10]
}

/// The number below 100 that two digits spell; `None` where one of the bytes is no digit.
pub(crate) fn number_of(tens: u8, ones: u8) -> Option<u8>
    ensures some { IfSome result (λ number. (number < 100) × (tens ∷ ones ∷ [] ≡ two_digits number)) }
    ensures only { (number : ℕ) → number < 100 → tens ∷ ones ∷ [] ≡ two_digits number → result ≡ Some number }
{
    if tens.is_ascii_digit() && ones.is_ascii_digit() {
        Some(10 * (tens - b'0') + (ones - b'0'))
    } else {
        None
    }
}
