//! What a command that was done makes of a board.
ghost use Rattle.std.specs.Prelude.{◌≡◌, Some, None, if◌then◌else◌};
ghost use Rattle.std.specs.Str.{bytes_eq};
ghost use Rattle.desk_model.specs.laws.Comes.{takes_off};
ghost use Rattle.board_window.specs.Becomes.{declined_from, released_at, bottom_of, is_put, becomes};

use crate::shown_board::ShownBoard;
use desk_base::{Code, PersonNo};
use desk_model::Cmd;
use duty_events::Event;

// The person, where the code is this board's.
fn here(code: &Code, board: &Code, person: PersonNo) -> Option<PersonNo>
    ensures { result ≡ (if bytes_eq code.now board.now then Some person else None) }
{
    if code == board { Some(person) } else { None }
}

// Whom declining an offer that was made from a board sends to the bottom of this one.
fn declined(from: &Option<Code>, board: &Code, person: PersonNo) -> Option<PersonNo>
    ensures { result ≡ declined_from board.now from.now person }
{
    match from {
        Some(from) => here(from, board, person),
        None => None,
    }
}

// Whom an event sends to the bottom of a board at this place.
fn released(place: &Code, person: PersonNo, event: &Event) -> Option<PersonNo>
    ensures { result ≡ released_at place.now person event.now }
{
    let Event::Final(_, at) = event else {
        return None;
    };
    here(place, at, person)
}

// Whom a command sends to the bottom of a board; `from` is the board of the offer that it declines.
fn bottom(from: &Option<Code>, cmd: &Cmd, board: &Code, place: &Code) -> Option<PersonNo>
    ensures { result ≡ bottom_of from.now cmd.now board.now place.now }
{
    match cmd {
        Cmd::List {
            person,
            board: code,
        } => here(code, board, *person),
        Cmd::MarkOn { person } => Some(*person),
        Cmd::Decline { person, .. } => declined(from, board, *person),
        Cmd::Happened { person, event } => released(place, *person, event),
        _ => None,
    }
}

// The command puts somebody on this board.
fn is_put(board: &Code, cmd: &Cmd) -> bool
    ensures { result ≡ is_put board.now cmd.now }
{
    match cmd {
        Cmd::List { board: code, .. } => code == board,
        _ => false,
    }
}

// Whom the command takes off this board.
fn taken_off(board: &Code, cmd: &Cmd) -> Option<PersonNo>
    ensures { result ≡ takes_off board.now cmd.now }
{
    match cmd {
        Cmd::Unlist {
            person,
            board: code,
        } => here(code, board, *person),
        _ => None,
    }
}

/// Turns a board into what a command makes of it that was done; `from` is the board of the offer that it declines.
pub(crate) fn follow(board: &mut ShownBoard, cmd: &Cmd, from: &Option<Code>)
    ensures { board.new ≡ becomes from.now cmd.now board.old }
{
    if let Some(person) = bottom(from, cmd, &board.code, &board.place) {
        let is_put = is_put(&board.code, cmd);
        board.members.set_last(is_put, person);
    } else if let Some(person) = taken_off(&board.code, cmd) {
        board.members.take_out(person);
    }
}
