ghost use Rattle.std.specs.Prelude.{◌≡◌, map};
ghost use Rattle.command_parser.specs.RecordForms.{record_forms};

use crate::event_word::EventWord;
use crate::field_form::FieldForm;
use crate::word::Word;

/// The forms of the fields of each record that states a command.
pub(crate) fn record_rows() -> &'static [&'static [FieldForm]]
    ensures { map (λ row. row.now) result.now ≡ record_forms }
{
    &RECORD_FORMS
}

// The forms of records: the minute, the command's word, and the forms behind them that a row of the table names.
macro_rules! forms_of_records {
    ($($word:ident: $($form:ident $(($event:ident))?),+;)+) => {
        [$(&[
            FieldForm::Minute,
            FieldForm::Word(Word::$word),
            $(FieldForm::$form $((EventWord::$event))?),+
        ]),+]
    };
}

const RECORD_FORMS: [&[FieldForm]; 37] = forms_of_records! {
    Enrol: Number, Craft, Code, Quals;
    Board: Code, Sort, Code;
    List: Number, Code;
    Unlist: Number, Code;
    Off: Number;
    On: Number;
    Qualify: Number, Quals;
    Past: Number, Event(Ride), Minute;
    Past: Number, Event(Duty), Minute;
    Past: Number, Event(Interim), Minute, Kind, Code;
    Past: Number, Event(Resume), Minute;
    Past: Number, Event(Relieve), Minute;
    Past: Number, Event(RideHome), Minute;
    Past: Number, Event(Final), Minute, Code;
    Past: Number, Event(Other), Minute, LaterMinute, Code;
    Event: Number, Event(Ride), Minute;
    Event: Number, Event(Duty), Minute;
    Event: Number, Event(Interim), Minute, Kind, Code;
    Event: Number, Event(Resume), Minute;
    Event: Number, Event(Relieve), Minute;
    Event: Number, Event(RideHome), Minute;
    Event: Number, Event(Final), Minute, Code;
    Event: Number, Event(Other), Minute, LaterMinute, Code;
    Vacancy: Number, Craft, Quals, Code, Minute, Duty, Limbo, Chain;
    Relief: Number, Craft, Quals, Code, Minute, Duty, Limbo, Chain;
    Next: Number;
    Offer: Number, Number;
    Accept: Number, Number;
    Decline: Number, Number;
    NoAnswer: Number, Number;
    Withdraw: Number, Number;
    Annul: Number;
    Drop: Number;
    Hours: Number, Month;
    At: Code, Position;
    Explain: Number, Number;
    Vac: Number;
};
