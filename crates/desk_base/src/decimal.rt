ghost use Rattle.std.specs.Prelude.{◌≡◌, ◌<◌, ◌≤◌, ◌^◌, ℕ, decimal, length, IfSome};
ghost use Rattle.desk_base.specs.Decimal.{IsPlain};

// How many digits a number below 2^32 has, at most.
const MOST_DIGITS: usize = 10;

/// The number that a text spells in decimal, without a sign or a leading zero; `None` for any other text, and
/// for a number from 2^32 on.
pub fn read_decimal(text: &[u8]) -> Option<u32>
    ensures some { IfSome result (λ number. text.now ≡ decimal number) }
    ensures only { (number : ℕ) → number < 2 ^ 32 → text.now ≡ decimal number
        → result ≡ Some number }
{
    match text {
        [] | [b'0', _, ..] => None,
        _ if text.len() > MOST_DIGITS => None,
        _ => number_of_digits(text),
    }
}

// The number of a text of at most 10 digits, 0 where it has none; leading zeros pass too.
fn number_of_digits(text: &[u8]) -> Option<u32>
    requires { length text.now ≤ MOST_DIGITS }
    ensures some { IfSome result (λ number. IsPlain text.now → text.now ≡ decimal number) }
    ensures only { (number : ℕ) → number < 2 ^ 32 → text.now ≡ decimal number
        → result ≡ Some number }
{
    let mut number: u64 = 0;
    for byte in text {
        if !byte.is_ascii_digit() {
            return None;
        }
        number = 10 * number + u64::from(*byte - b'0');
    }
    u32::try_from(number).ok()
}
