ghost use Rattle.std.specs.Prelude.{◌≡◌, ◌≤◌, ◌<◌, ◌+◌, Some, None, length, vec_len, vec_capacity, if◌then◌else◌};
ghost use Rattle.std.specs.Str.{bytes_eq};
ghost use Rattle.desk_model.specs.statements.Opening.{OpeningValue};
ghost use Rattle.desk_model.specs.histories.History.{history_of, with_entry, said};
ghost use Rattle.desk_model.specs.histories.Register.{board_of};
ghost use Rattle.desk_model.specs.boards.Boards.{is_at, released, declined, sends, order};
ghost use Rattle.desk_model.specs.laws.Comes.{takes_off, without, sent_last};

use crate::boards::puts;
use crate::offers::open_offer;
use crate::register::sets_up;
use desk_base::{Code, PersonNo};
use desk_model::{BoardSetup, Cmd, Entry, Offer};
use duty_events::Event;

// Whom the entry sends to the bottom of the board, which was set up so by the entries before.
fn sends(
    before: &[Entry],
    entry: &Entry,
    setup: &Option<BoardSetup>,
    board: &Code,
) -> Option<PersonNo>
    ensures { (o : OpeningValue) → board_of (history_of o before.now) board.now ≡ setup.now
        → result ≡ said (sends board.now (history_of o before.now)) entry.now }
{
    let cmd = entry.accepted()?;
    match cmd {
        Cmd::List {
            person,
            board: code,
        } => here(code, board, *person),
        Cmd::MarkOn { person } => Some(*person),
        Cmd::Decline { vac, person } => declined(&open_offer(before, *vac), board, *person),
        Cmd::Happened { person, event } => released(setup, *person, event),
        _ => None,
    }
}

// The person, where the code is this board's.
fn here(code: &Code, board: &Code, person: PersonNo) -> Option<PersonNo>
    ensures { result ≡ (if bytes_eq code.now board.now then Some person else None) }
{
    if code == board { Some(person) } else { None }
}

// Whom declining this offer sends to the bottom of the board.
fn declined(offer: &Option<Offer>, board: &Code, person: PersonNo) -> Option<PersonNo>
    ensures { result ≡ declined board.now offer.now person }
{
    match offer {
        Some(offer) => here(&offer.board, board, person),
        None => None,
    }
}

// Whom an event of a person sends to the bottom of a board that was set up so.
fn released(board: &Option<BoardSetup>, person: PersonNo, event: &Event) -> Option<PersonNo>
    ensures { result ≡ released board.now person event.now }
{
    let Event::Final(_, place) = event else {
        return None;
    };
    if is_at(place, board) {
        Some(person)
    } else {
        None
    }
}

// The board is at this place.
fn is_at(place: &Code, board: &Option<BoardSetup>) -> bool
    ensures { result ≡ is_at place.now board.now }
{
    match board {
        Some(board) => board.place == *place,
        None => false,
    }
}

// Whom the entry takes off the board.
fn takes_off(entry: &Entry, board: &Code) -> Option<PersonNo>
    ensures { result ≡ said (takes_off board.now) entry.now }
{
    let cmd = entry.accepted()?;
    match cmd {
        Cmd::Unlist {
            person,
            board: code,
        } => here(code, board, *person),
        _ => None,
    }
}

// Takes the person out of the list, where they stand in it.
fn take_out(members: &mut Vec<PersonNo>, person: PersonNo)
    ensures items { members.new.items ≡ without person members.old.items }
    ensures len { vec_len members.new ≤ vec_len members.old }
    ensures room { vec_capacity members.new ≡ vec_capacity members.old }
{
    members.retain(|other| person != *other);
}

// Sets the person last in the list, where they are put on the board or stand on it.
fn send_last(members: &mut Vec<PersonNo>, is_put: bool, person: PersonNo)
    requires { vec_len members.old < vec_capacity members.old }
    ensures items { members.new.items ≡ sent_last is_put person members.old.items }
    ensures len { vec_len members.new ≤ vec_len members.old + 1 }
    ensures room { vec_capacity members.new ≡ vec_capacity members.old }
{
    if is_put || members.contains(&person) {
        take_out(members, person);
        members.push_reserved(person);
    }
}

// Turns the order of the board before an entry into that after it. The board was set up so by the entries before.
fn follow(
    before: &[Entry],
    entry: &Entry,
    setup: &Option<BoardSetup>,
    board: &Code,
    members: &mut Vec<PersonNo>,
)
    requires { vec_len members.old < vec_capacity members.old }
    ensures order { (o : OpeningValue) → board_of (history_of o before.now) board.now ≡ setup.now
        → members.old.items ≡ order (history_of o before.now) board.now
        → members.new.items ≡ order (with_entry (history_of o before.now) entry.now) board.now }
    ensures len { vec_len members.new ≤ vec_len members.old + 1 }
    ensures room { vec_capacity members.new ≡ vec_capacity members.old }
{
    if let Some(person) = sends(before, entry, setup, board) {
        let is_put = puts(entry, person, board).unwrap_or(false);
        send_last(members, is_put, person);
    } else if let Some(person) = takes_off(entry, board) {
        take_out(members, person);
    }
}

/// Puts the persons on the board into a list that has room for them, in their order, and nothing else.
pub(crate) fn fill(entries: &[Entry], board: &Code, members: &mut Vec<PersonNo>)
    requires { length entries.now ≤ vec_capacity members.old }
    ensures order { (o : OpeningValue) → members.new.items ≡ order (history_of o entries.now) board.now }
    ensures room { vec_capacity members.new ≡ vec_capacity members.old }
{
    members.clear();
    let mut setup = None;
    for (i, entry) in entries.iter().enumerate() {
        follow(&entries[..i], entry, &setup, board, members);
        setup = setup.or(sets_up(entry, board));
    }
}
