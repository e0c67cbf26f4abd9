//! Single fields of a record, read.
ghost use Rattle.std.specs.Prelude.{◌≡◌, ◌<◌, ◌≤◌, ◌^◌, ℕ, Bool, decimal, IfSome};
ghost use Rattle.desk_model.specs.declared.limits.TheConstants.{POSITION_LIMIT};
ghost use Rattle.desk_base.specs.Number.{IsNumber};
ghost use Rattle.desk_model.specs.texts.StatedTexts.{sort_text};

use desk_base::{PersonNo, VacNo, read_decimal};
use desk_model::POSITION_LIMIT;

/// The person whose number a field spells in decimal, 1 to 9,999,999.
pub fn read_person(text: &[u8]) -> Option<PersonNo>
    ensures some { IfSome result (λ person. IsNumber person × (text.now ≡ decimal person)) }
    ensures only { (person : ℕ) → IsNumber person → text.now ≡ decimal person
        → result ≡ Some person }
{
    PersonNo::new(read_decimal(text)?)
}

/// The vacancy whose number a field spells in decimal, 1 to 9,999,999.
pub fn read_vac(text: &[u8]) -> Option<VacNo>
    ensures some { IfSome result (λ vac. IsNumber vac × (text.now ≡ decimal vac)) }
    ensures only { (vac : ℕ) → IsNumber vac → text.now ≡ decimal vac → result ≡ Some vac }
{
    VacNo::new(read_decimal(text)?)
}

/// The count below 2^16, of minutes or of places, that a field spells in decimal.
pub fn read_count(text: &[u8]) -> Option<u16>
    ensures some { IfSome result (λ count. text.now ≡ decimal count) }
    ensures only { (count : ℕ) → count < 2 ^ 16 → text.now ≡ decimal count
        → result ≡ Some count }
{
    u16::try_from(read_decimal(text)?).ok()
}

/// The position of a board, 1 to 9,999, that a field spells in decimal.
pub fn read_position(text: &[u8]) -> Option<u16>
    ensures some { IfSome result (λ position. (1 ≤ position) × (position ≤ POSITION_LIMIT)
        × (text.now ≡ decimal position)) }
    ensures only { (position : ℕ) → 1 ≤ position → position ≤ POSITION_LIMIT → text.now ≡ decimal position
        → result ≡ Some position }
{
    let position = u16::try_from(read_decimal(text)?).ok()?;
    if position >= 1 && position <= POSITION_LIMIT {
        Some(position)
    } else {
        None
    }
}

/// Whether a board is an extra board, which a field spells as `extra` or `pool`.
pub(crate) fn read_extra(text: &[u8]) -> Option<bool>
    ensures some { IfSome result (λ extra. text.now ≡ sort_text extra) }
    ensures only { (extra : Bool) → text.now ≡ sort_text extra → result ≡ Some extra }
{
    if text == b"extra".as_slice() {
        Some(true)
    } else if text == b"pool".as_slice() {
        Some(false)
    } else {
        None
    }
}
