//! What a reply or a bar keeps, read from its text: minutes, and values with a blank between them.
ghost use Rattle.std.specs.Prelude.{◌≡◌, ◌<◌, ◌≤◌, ◌^◌, ◌∷◌, ◌++◌, ℕ, List, decimal, IfSome, IsSomeAnd};
ghost use Rattle.desk_model.specs.declared.limits.TheConstants.{POSITION_LIMIT};
ghost use Rattle.desk_base.specs.declared.minute.TheConstants.{YEARS_BEGIN};
ghost use Rattle.desk_base.specs.Code.{IsCode};
ghost use Rattle.desk_base.specs.Minute.{IsInYears, minute_text};
ghost use Rattle.desk_base.specs.Month.{IsMonthInYears, month_text};
ghost use Rattle.desk_model.specs.texts.BarTexts.{late_text};

use crate::cut::{cut_minute, cut_near};
use command_parser::read_position;
use desk_base::{Code, Minute, Month, YEARS_END, read_decimal};

/// The minute, from the year 2000 on, that a text spells; one behind the year 2099 by its number, which spells no other.
pub(crate) fn read_late(text: &[u8]) -> Option<Minute>
    ensures some { IfSome result (λ minute. (YEARS_BEGIN ≤ minute) × (minute < 2 ^ 28)
        × (text.now ≡ late_text minute)) }
    ensures only { (minute : ℕ) → YEARS_BEGIN ≤ minute → minute < 2 ^ 28
        → text.now ≡ late_text minute → result ≡ Some minute }
{
    if let Some(minute) = Minute::read(text) {
        return Some(minute);
    }
    let minute = Minute::new(u64::from(read_decimal(text)?))?;
    if minute.number() >= YEARS_END {
        Some(minute)
    } else {
        None
    }
}

/// The minute of the years 2000 to 2099 with which a text begins, and what stands behind it and a blank.
pub(crate) fn read_since(text: &[u8]) -> Option<(Minute, &[u8])>
    ensures some { IfSome result (λ found. IsInYears found.0
        × (text.now ≡ minute_text found.0 ++ 32 ∷ found.1.now)) }
    ensures only { (minute : ℕ) (rest : List ℕ) → IsInYears minute
        → text.now ≡ minute_text minute ++ 32 ∷ rest
        → IsSomeAnd result (λ found. (found.0 ≡ minute) × (found.1.now ≡ rest)) }
{
    let (minute, rest) = cut_minute(text, b' ')?;
    Some((Minute::read(minute)?, rest))
}

/// Two numbers below 2^32.
pub(crate) fn read_numbers(text: &[u8]) -> Option<(u32, u32)>
    ensures some { IfSome result (λ both. text.now ≡ decimal both.0 ++ 32 ∷ decimal both.1) }
    ensures only { (first second : ℕ) → first < 2 ^ 32 → second < 2 ^ 32
        → text.now ≡ decimal first ++ 32 ∷ decimal second → result ≡ Some (first, second) }
{
    let (first, second) = cut_near(text, b' ')?;
    Some((read_decimal(first)?, read_decimal(second)?))
}

/// A month of the years 2000 to 2099, and its total in minutes, below 2^32.
pub(crate) fn read_total(text: &[u8]) -> Option<(Month, u32)>
    ensures some { IfSome result (λ both. IsMonthInYears both.0
        × (text.now ≡ month_text both.0 ++ 32 ∷ decimal both.1)) }
    ensures only { (month total : ℕ) → IsMonthInYears month → total < 2 ^ 32
        → text.now ≡ month_text month ++ 32 ∷ decimal total → result ≡ Some (month, total) }
{
    let (month, total) = cut_near(text, b' ')?;
    Some((Month::read(month)?, read_decimal(total)?))
}

/// A board, and a position on it, 1 to 9,999.
pub(crate) fn read_board_position(text: &[u8]) -> Option<(Code, u16)>
    ensures some { IfSome result (λ both. IsCode both.0 × (1 ≤ both.1) × (both.1 ≤ POSITION_LIMIT)
        × (text.now ≡ both.0 ++ 32 ∷ decimal both.1)) }
    ensures only { (board : List ℕ) (position : ℕ) → IsCode board → 1 ≤ position
        → position ≤ POSITION_LIMIT → text.now ≡ board ++ 32 ∷ decimal position
        → result ≡ Some (board, position) }
{
    let (board, position) = cut_near(text, b' ')?;
    Some((Code::read(board)?, read_position(position)?))
}
