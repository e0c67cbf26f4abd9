ghost use Rattle.std.specs.Prelude.{◌≡◌, IfOk, map, string_bytes};
ghost use Rattle.std.specs.Str.{IsAscii};
ghost use Rattle.desk_base.specs.Minute.{minute_text};
ghost use Rattle.serde_json.specs.View.{view, items_of};
ghost use Rattle.serde_json.specs.Data.{array};
ghost use Rattle.duty_record.specs.Json.{tour_object, tour_data, json_text};

use crate::TourRecord;
use desk_base::{Code, Minute, NoMemory};
use serde_json::{Value, json};
use std::alloc::{AllocError, Global};

// A record as a JSON object, by the texts of its minutes and of its place.
fn tour_object(
    alloc: Global,
    tour: &TourRecord,
    start: &str,
    end: &str,
    place: &str,
) -> Result<Value, AllocError>
    ensures { IfOk result (λ v. view v ≡ tour_object tour.now start.now end.now place.now) }
{
    json!(in alloc; {
        "capped": tour.capped,
        "end": end,
        "excess": tour.excess,
        "limbo": tour.limbo,
        "on_duty": tour.on_duty,
        "over": tour.over,
        "person": tour.person.number(),
        "place": place,
        "start": start,
        "vacancy": tour.vacancy
    })
}

// A record as a JSON object.
fn tour_value(alloc: Global, tour: &TourRecord) -> Result<Value, AllocError>
    ensures { IfOk result (λ v. view v ≡ tour_data tour.now) }
{
    let start = written(tour.start);
    let end = written(tour.end);
    let place = written_code(&tour.place);
    tour_object(alloc, tour, text(&start), text(&end), text(place))
}

// A minute's text, whose bytes are plain.
fn written(minute: Minute) -> [u8; 16]
    ensures text { result ≡ minute_text minute }
    ensures plain { IsAscii result }
{
    minute.number();
    minute.write()
}

// A code's text, whose bytes are plain.
fn written_code(code: &Code) -> &[u8]
    ensures text { result.now ≡ code.now }
    ensures plain { IsAscii result.now }
{
    code.text()
}

// The same bytes as text.
fn text(bytes: &[u8]) -> &str
    requires { IsAscii bytes.now }
    ensures { result.now ≡ bytes.now }
{
    str::from_utf8(bytes).unwrap()
}

/// The records as JSON: an array with an object for each, in order, without spaces, its keys in the order of their bytes.
/// Minutes have the form `YYYY-MM-DD HH:MM`, by which those of the years 2000 to 2099 can be read again. No records give `[]`.
/// `NoMemory` where there is none for it.
pub fn to_json(alloc: Global, records: &[TourRecord]) -> Result<String, NoMemory>
    ensures { IfOk result (λ s. string_bytes s ≡ json_text records.now) }
{
    let mut values = Vec::new(alloc);
    for tour in records {
        values.push(tour_value(alloc, tour)?)?;
    }
    Ok(Value::Array(values).to_string(alloc)?)
}
