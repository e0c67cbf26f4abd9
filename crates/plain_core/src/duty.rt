ghost use Rattle.std.specs.Prelude.{◌≡◌, ◌≤◌, Some, None, is_some, nat_eq, length, vec_capacity, if◌then◌else◌};
ghost use Rattle.duty_events.specs.Lists.{latest};
ghost use Rattle.desk_model.specs.statements.Opening.{OpeningValue};
ghost use Rattle.desk_model.specs.histories.History.{history_of, said, first_of};
ghost use Rattle.desk_model.specs.histories.Duty.{tells, events, closes};

use desk_base::{Minute, PersonNo};
use desk_model::{Cmd, Entry};
use duty_events::{Event, Stage, may_follow};

// The event that the entry tells of this person.
fn told(entry: &Entry, person: PersonNo) -> Option<Event>
    ensures { result ≡ said (tells person) entry.now }
{
    let cmd = entry.accepted()?;
    match cmd {
        Cmd::Past {
            person: other,
            event,
        } => told_of(*other, person, event),
        Cmd::Happened {
            person: other,
            event,
        } => told_of(*other, person, event),
        _ => None,
    }
}

// The event, where it is told of this person.
fn told_of(other: PersonNo, person: PersonNo, event: &Event) -> Option<Event>
    ensures { result ≡ (if nat_eq other person then Some event.now else None) }
{
    if other == person { Some(*event) } else { None }
}

/// Puts the person's events into a list that has room for them, and nothing else.
pub(crate) fn gather(entries: &[Entry], person: PersonNo, list: &mut Vec<Event>)
    requires { length entries.now ≤ vec_capacity list.old }
    ensures events { (o : OpeningValue) → list.new.items ≡ events (history_of o entries.now) person }
    ensures room { vec_capacity list.new ≡ vec_capacity list.old }
{
    list.clear();
    let mut stage = Stage::Off;
    let mut last = None;
    for entry in entries {
        let Some(event) = told(entry, person) else {
            continue;
        };
        if !may_follow(&stage, &last, &event) {
            continue;
        }
        list.push_reserved(event);
        stage = stage.after(&event);
        last = Some(event.last_minute());
    }
}

/// The latest minute of a list of events.
pub(crate) fn latest(events: &[Event]) -> Option<Minute>
    ensures { result ≡ latest events.now }
{
    let event = events.last()?;
    Some(event.last_minute())
}

// Whether after the entry the person's past can't be told any more.
fn closes(entry: &Entry, person: PersonNo) -> bool
    ensures { result ≡ is_some (said (closes person) entry.now) }
{
    let Some(cmd) = entry.accepted() else {
        return false;
    };
    match cmd {
        Cmd::List { person: other, .. } => *other == person,
        Cmd::Happened { person: other, .. } => *other == person,
        _ => false,
    }
}

/// Whether the person's past can't be told any more.
pub(crate) fn is_closed(entries: &[Entry], person: PersonNo) -> bool
    ensures { result ≡ is_some (first_of (said (closes person)) entries.now) }
{
    for entry in entries {
        if closes(entry, person) {
            return true;
        }
    }
    false
}
