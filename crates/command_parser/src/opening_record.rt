//! An opening, read from the fields of a record.
ghost use Rattle.std.specs.Prelude.{◌≡◌, ◌<◌, ◌^◌, ℕ, decimal, map, IfSome};
ghost use Rattle.desk_base.specs.Window.{WindowValue};
ghost use Rattle.desk_model.specs.declared.edition.Edition.{Edition as EditionValue};
ghost use Rattle.desk_model.specs.statements.Opening.{OpeningValue, edition_fields};
ghost use Rattle.command_parser.specs.OpeningRecord.{StatesOpening, SpellsOpening, SpellsWindow};

use desk_base::{Minute, Month, Window, read_decimal};
use desk_model::{Edition, Opening};

/// The opening of a record's fields, `M,open,month,months,answer`, in the second edition with a sixth field, `2`: 1 to 24
/// months within the years 2000 to 2099, a minute of them, and 1 to 60 minutes to answer. `None` where the fields are no opening's.
pub fn opening_of(fields: &[&[u8]]) -> Option<Opening>
    ensures some { IfSome result (StatesOpening (map (λ field. field.now) fields.now)) }
    ensures only { (opening : OpeningValue)
        → StatesOpening (map (λ field. field.now) fields.now) opening → result ≡ Some opening }
{
    let [start, word, month, months, answer, edition @ ..] = fields else {
        return None;
    };
    if *word != b"open".as_slice() {
        return None;
    }
    spelled_opening(start, month, months, answer, edition_of(edition)?)
}

// The edition that the fields behind the fifth name: the first where there are none, the second where they are `2` alone.
fn edition_of(fields: &[&[u8]]) -> Option<Edition>
    ensures some { IfSome result (λ edition.
        map (λ field. field.now) fields.now ≡ edition_fields edition) }
    ensures only { (edition : EditionValue)
        → map (λ field. field.now) fields.now ≡ edition_fields edition
        → result ≡ Some edition }
{
    if fields.is_empty() {
        return Some(Edition::One);
    }
    let [edition] = fields else {
        return None;
    };
    if *edition == b"2".as_slice() {
        Some(Edition::Two)
    } else {
        None
    }
}

fn spelled_opening(
    start: &[u8],
    month: &[u8],
    months: &[u8],
    answer: &[u8],
    edition: Edition,
) -> Option<Opening>
    ensures some { IfSome result
        (SpellsOpening start.now month.now months.now answer.now edition) }
    ensures only { (opening : OpeningValue)
        → SpellsOpening start.now month.now months.now answer.now edition opening
        → result ≡ Some opening }
{
    let start = Minute::read(start)?;
    let window = spelled_window(month, months)?;
    let answer = small_number(answer)?;
    Opening::new(start, window, answer, edition)
}

fn spelled_window(month: &[u8], months: &[u8]) -> Option<Window>
    ensures some { IfSome result (SpellsWindow month.now months.now) }
    ensures only { (window : WindowValue) → SpellsWindow month.now months.now window
        → result ≡ Some window }
{
    let first = Month::read(month)?;
    let months = small_number(months)?;
    Window::new(first, months)
}

// The number below 256 that a field spells.
fn small_number(text: &[u8]) -> Option<u8>
    ensures some { IfSome result (λ number. text.now ≡ decimal number) }
    ensures only { (number : ℕ) → number < 2 ^ 8 → text.now ≡ decimal number
        → result ≡ Some number }
{
    u8::try_from(read_decimal(text)?).ok()
}
