//! Events, read from the fields of a record.
ghost use Rattle.std.specs.Prelude.{◌≡◌, ◌≢◌, ◌∷◌, [], codes, IfSome, map};
ghost use Rattle.duty_events.specs.declared.event.Event.{Event as EventValue};
ghost use Rattle.duty_events.specs.declared.kind.Kind.{Kind as KindValue};
ghost use Rattle.desk_model.specs.texts.StatedTexts.{kind_text};
ghost use Rattle.command_parser.specs.Spelled.{SpellsEvent};

use desk_base::{Code, Span};
use duty_events::{Event, Kind};
use record_rows::LastMinute;

/// The event that fields spell; `None` where they spell none: its word, its minute, the kind and the place of an interim,
/// the place of a final release, or the end and the place of other service. `last` is the minute that was read last: it only spares
/// work.
pub(crate) fn read_event(last: &LastMinute, fields: &[&[u8]]) -> Option<Event>
    ensures some { IfSome result (SpellsEvent (map (λ field. field.now) fields.now)) }
    ensures only { (event : EventValue) → SpellsEvent (map (λ field. field.now) fields.now) event
        → result ≡ Some event }
{
    match fields {
        [word, at] => read_moment(last, word, at),
        [word, at, place] => read_final(last, word, at, place),
        [word, at, kind_or_end, place] => {
            if *word == b"interim".as_slice() {
                read_interim(last, at, kind_or_end, place)
            } else {
                read_other(last, word, at, kind_or_end, place)
            }
        }
        _ => None,
    }
}

// An event that is its word and its minute alone.
fn read_moment(last: &LastMinute, word: &[u8], at: &[u8]) -> Option<Event>
    ensures some { IfSome result (SpellsEvent (word.now ∷ at.now ∷ [])) }
    ensures only { (event : EventValue) → SpellsEvent (word.now ∷ at.now ∷ []) event
        → result ≡ Some event }
{
    let at = last.read_beside(at)?;
    if word == b"ride".as_slice() {
        Some(Event::Ride(at))
    } else if word == b"duty".as_slice() {
        Some(Event::Duty(at))
    } else if word == b"resume".as_slice() {
        Some(Event::Resume(at))
    } else if word == b"relieve".as_slice() {
        Some(Event::Relieve(at))
    } else if word == b"ridehome".as_slice() {
        Some(Event::RideHome(at))
    } else {
        None
    }
}

// A final release.
fn read_final(last: &LastMinute, word: &[u8], at: &[u8], place: &[u8]) -> Option<Event>
    ensures some { IfSome result (SpellsEvent (word.now ∷ at.now ∷ place.now ∷ [])) }
    ensures only { (event : EventValue) → SpellsEvent (word.now ∷ at.now ∷ place.now ∷ []) event
        → result ≡ Some event }
{
    let at = last.read_beside(at)?;
    let place = Code::read(place)?;
    if word == b"final".as_slice() {
        Some(Event::Final(at, place))
    } else {
        None
    }
}

// A release for an interim, behind its word.
fn read_interim(last: &LastMinute, at: &[u8], kind: &[u8], place: &[u8]) -> Option<Event>
    ensures some { IfSome result (SpellsEvent (codes "interim" ∷ at.now ∷ kind.now ∷ place.now ∷ [])) }
    ensures only { (event : EventValue)
        → SpellsEvent (codes "interim" ∷ at.now ∷ kind.now ∷ place.now ∷ []) event
        → result ≡ Some event }
{
    let at = last.read_beside(at)?;
    let kind = read_kind(kind)?;
    let place = Code::read(place)?;
    Some(Event::Interim(at, kind, place))
}

/// The kind of an interim, by its letter.
pub fn read_kind(text: &[u8]) -> Option<Kind>
    ensures some { IfSome result (λ kind. text.now ≡ kind_text kind) }
    ensures only { (kind : KindValue) → text.now ≡ kind_text kind → result ≡ Some kind }
{
    if text == b"D".as_slice() {
        Some(Kind::D)
    } else if text == b"P".as_slice() {
        Some(Kind::P)
    } else if text == b"O".as_slice() {
        Some(Kind::O)
    } else {
        None
    }
}

// Other service. An interim's word is no word of it.
fn read_other(last: &LastMinute, word: &[u8], from: &[u8], to: &[u8], place: &[u8]) -> Option<Event>
    ensures some { IfSome result (SpellsEvent (word.now ∷ from.now ∷ to.now ∷ place.now ∷ [])) }
    ensures only { word.now ≢ codes "interim" → (event : EventValue)
        → SpellsEvent (word.now ∷ from.now ∷ to.now ∷ place.now ∷ []) event
        → result ≡ Some event }
{
    let from = last.read_beside(from)?;
    let to = last.read_beside(to)?;
    let place = Code::read(place)?;
    let span = Span::new(from, to)?;
    if word == b"other".as_slice() {
        Some(Event::Other(span, place))
    } else {
        None
    }
}
