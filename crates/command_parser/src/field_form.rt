ghost use Rattle.std.specs.Prelude.{◌≡◌, ◌↔◌, true};
ghost use Rattle.command_parser.specs.declared.field_form.FieldForm.TheVariants as form;
ghost use Rattle.command_parser.specs.RecordForms.{HasForm};

use crate::event_word::EventWord;
use crate::field::{read_count, read_extra, read_person, read_position};
use crate::spelled_event::read_kind;
use crate::word::Word;
use desk_base::{Code, Minute, Month};
use desk_model::{Chain, DUTY_PLAN_LIMIT, LIMBO_PLAN_LIMIT};
use qualifications::{Craft, Quals};

/// What a field of a record may be.
#[derive(Clone, Copy)]
pub(crate) enum FieldForm {
    /// A minute of the years 2000 to 2099, as `2024-03-04 06:30`.
    Minute,
    /// This word of a command.
    Word(Word),
    /// This word of an event.
    Event(EventWord),
    /// A minute that is later than the field before it.
    LaterMinute,
    /// A month of these years, as `2024-03`.
    Month,
    /// The number of a person or of a vacancy, 1 to 9,999,999.
    Number,
    /// A code of 1 to 6 capital letters and digits.
    Code,
    /// A craft, by its letter.
    Craft,
    /// Qualifications, as `3+17`, or `-` for none.
    Quals,
    /// The sort of a board, `pool` or `extra`.
    Sort,
    /// The kind of an interim, by its letter.
    Kind,
    /// A chain of boards, as `EXTRA+POOL`.
    Chain,
    /// The minutes on duty that are planned, 1 to 9,999.
    Duty,
    /// The minutes in limbo that are planned, 0 to 999.
    Limbo,
    /// A position of a board, 1 to 9,999.
    Position,
}

impl FieldForm {
    /// Whether a field has the form behind the field before it.
    pub(crate) fn allows(self, before: &[u8], field: &[u8]) -> bool
        ensures { (result ≡ true) ↔ HasForm self before.now field.now }
    {
        match self {
            FieldForm::Minute => Minute::read(field).is_some(),
            FieldForm::Word(word) => Word::read(field) == Some(word),
            FieldForm::Event(word) => EventWord::read(field) == Some(word),
            FieldForm::LaterMinute => is_later(before, field),
            FieldForm::Month => Month::read(field).is_some(),
            FieldForm::Number => read_person(field).is_some(),
            FieldForm::Code => Code::read(field).is_some(),
            FieldForm::Craft => Craft::read(field).is_some(),
            FieldForm::Quals => Quals::read(field).is_some(),
            FieldForm::Sort => read_extra(field).is_some(),
            FieldForm::Kind => read_kind(field).is_some(),
            FieldForm::Chain => Chain::read(field).is_some(),
            FieldForm::Duty => matches!(read_count(field), Some(1..=DUTY_PLAN_LIMIT)),
            FieldForm::Limbo => matches!(read_count(field), Some(0..=LIMBO_PLAN_LIMIT)),
            FieldForm::Position => read_position(field).is_some(),
        }
    }
}

// Whether both are minutes and the second is later.
fn is_later(before: &[u8], field: &[u8]) -> bool
    ensures { (result ≡ true) ↔ HasForm form.LaterMinute before.now field.now }
{
    let Some(from) = Minute::read(before) else {
        return false;
    };
    let Some(to) = Minute::read(field) else {
        return false;
    };
    from < to
}
