//! How a vacancy stands, where a person stands in a tour, and why an event is not allowed, read from their texts.
ghost use Rattle.std.specs.Prelude.{◌≡◌, ◌++◌, codes, IfSome};
ghost use Rattle.duty_events.specs.declared.stage.Stage.{Stage as StageValue};
ghost use Rattle.duty_events.specs.declared.event_fault.EventFault.{EventFault as FaultValue};
ghost use Rattle.desk_model.specs.declared.vac_state.VacState.{VacState as StateValue};
ghost use Rattle.desk_text.specs.SpelledReply.{SpellsState, SpellsStage, SpellsFault};

use crate::cut::{behind, cut_near};
use crate::spelled_part::read_since;
use command_parser::{read_kind, read_person};
use desk_base::{Code, Minute, read_decimal};
use desk_model::VacState;
use duty_events::{EventFault, Stage};

/// How a vacancy stands, by its text; `None` for any other text.
pub(crate) fn read_state(text: &[u8]) -> Option<VacState>
    ensures some { IfSome result (SpellsState text.now) }
    ensures only { (how : StateValue) → SpellsState text.now how → result ≡ Some how }
{
    if let Some(person) = behind(text, b"offered ") {
        Some(VacState::OnOffer(read_person(person)?))
    } else if let Some(person) = behind(text, b"taken ") {
        Some(VacState::Taken(read_person(person)?))
    } else if let Some(person) = behind(text, b"begun ") {
        Some(VacState::Begun(read_person(person)?))
    } else if text == b"vacant".as_slice() {
        Some(VacState::Vacant)
    } else if text == b"annulled".as_slice() {
        Some(VacState::Annulled)
    } else {
        None
    }
}

/// The stage of a tour of duty, by its text; `None` for any other text.
fn read_stage(text: &[u8]) -> Option<Stage>
    ensures some { IfSome result (SpellsStage text.now) }
    ensures only { (stage : StageValue) → SpellsStage text.now stage → result ≡ Some stage }
{
    if let Some(interim) = behind(text, b"interim ") {
        read_interim(interim)
    } else if text == b"off".as_slice() {
        Some(Stage::Off)
    } else if text == b"riding".as_slice() {
        Some(Stage::Riding)
    } else if text == b"duty".as_slice() {
        Some(Stage::Duty)
    } else if text == b"waiting".as_slice() {
        Some(Stage::Waiting)
    } else if text == b"riding home".as_slice() {
        Some(Stage::RidingHome)
    } else {
        None
    }
}

// An interim behind its word: its kind, when it began, and its place.
fn read_interim(text: &[u8]) -> Option<Stage>
    ensures some { IfSome result (SpellsStage (codes "interim " ++ text.now)) }
    ensures only { (stage : StageValue) → SpellsStage (codes "interim " ++ text.now) stage
        → result ≡ Some stage }
{
    let (kind, rest) = cut_near(text, b' ')?;
    let Some((since, place)) = read_since(rest) else {
        return None;
    };
    Some(Stage::Interim {
        kind: read_kind(kind)?,
        since,
        place: Code::read(place)?,
    })
}

/// Why an event may not follow those before it, by its text; `None` for any other text.
pub(crate) fn read_fault(text: &[u8]) -> Option<EventFault>
    ensures some { IfSome result (SpellsFault text.now) }
    ensures only { (fault : FaultValue) → SpellsFault text.now fault → result ≡ Some fault }
{
    if let Some(stage) = behind(text, b"wrong stage ") {
        Some(EventFault::WrongStage(read_stage(stage)?))
    } else if let Some(last) = behind(text, b"behind ") {
        Some(EventFault::Behind(Minute::read(last)?))
    } else if let Some(minutes) = behind(text, b"interim too long ") {
        Some(EventFault::InterimTooLong(read_decimal(minutes)?))
    } else if let Some(place) = behind(text, b"other place ") {
        Some(EventFault::OtherPlace(Code::read(place)?))
    } else {
        None
    }
}
