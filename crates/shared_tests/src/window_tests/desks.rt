//! Desks with windows, and what is done at them.
ghost use Rattle.std.specs.Prelude.{◌≡◌, ◌+◌, ◌<◌, ◌≤◌, IfSome, length, vec_len, vec_capacity};
ghost use Rattle.std.specs.List.{All};
ghost use Rattle.desk_model.specs.declared.limits.TheConstants.{LAST_CALLER};
ghost use Rattle.turn_gate.specs.Seats.{IsSeatOf};
ghost use Rattle.desk_shared.specs.Shown.{IsViewOf, IsWallOf};

use board_window::{Look, NewWall, Note, Showing, Spot, View};
use call_history::Book;
use command_parser::read_command;
use desk_base::{Code, Minute, Month, PersonNo, Window};
use desk_model::{Booked, DeskCore, Edition, Entry, LAST_CALLER, Opening, Stated};
use desk_shared::{CalledShown, ShownBook, ShownDesk, a_desk_has_one_wall};
use plain_core::PlainCore;
use std::alloc::Global;
use std::process::Abort;
use std::sync::Wait;
use turn_gate::Seat;

/// A book with its wall, of a plain desk.
pub type Shown = ShownBook<Book<PlainCore>>;

/// A plain desk with windows.
pub type PlainDesk = ShownDesk<Book<PlainCore>>;

/// The pool P1 at HOM, with 101 and 102.
pub const BASE: [&[u8]; 5] = [
    b"2024-03-04 00:01,board,P1,pool,HOM",
    b"2024-03-04 00:01,enrol,101,E,HOM,-",
    b"2024-03-04 00:01,enrol,102,E,HOM,-",
    b"2024-03-04 00:02,list,101,P1",
    b"2024-03-04 00:02,list,102,P1",
];

fn opening() -> Option<Opening> {
    let window = Window::new(Month::read(b"2024-03")?, 1)?;
    let start = Minute::read(b"2024-03-04 00:00")?;
    Opening::new(start, window, 15, Edition::One)
}

/// What these lines state.
pub fn stated(alloc: Global, lines: &[&[u8]]) -> Option<Vec<Stated>> {
    let mut commands = Vec::new(alloc);
    for line in lines {
        commands.push(read_command(alloc, line).ok()?).ok()?;
    }
    Some(commands)
}

/// A plain desk after these commands, with room for so many more.
pub fn plain_desk(alloc: Global, setup: &[Stated], steps: u64) -> Option<PlainCore> {
    let room = steps.checked_add(setup.len() as u64)?;
    let mut core = PlainCore::new(alloc, opening()?, room).ok()?;
    for stated in setup {
        if core.left() == 0 {
            return None;
        }
        core.step(0, *stated);
    }
    Some(core)
}

// The book of a desk that was opened so, after these commands, with room for so many more.
fn book(alloc: Global, opening: Opening, setup: &[Stated], calls: u32) -> Option<Book<PlainCore>>
    ensures opening { IfSome result (λ book. (⟦<Book<PlainCore> as Booked>⟧.history book).opening ≡ opening) }
    ensures room { IfSome result (λ book. length (⟦<Book<PlainCore> as Booked>⟧.history book).entries + calls
        ≤ ⟦<Book<PlainCore> as Booked>⟧.room book) }
{
    let room = u32::try_from(setup.len()).ok()?.checked_add(calls)?;
    let core = PlainCore::new(alloc, opening, u64::from(room)).ok()?;
    let mut book = Book::new(alloc, core).ok()?;
    for stated in setup {
        book.step(0, *stated).ok()?;
    }
    if book.left() < calls {
        return None;
    }
    Some(book)
}

/// A desk with windows after these commands, with so many seats and calls of each.
pub fn open<R: Wait>(
    rt: &R,
    alloc: Global,
    setup: &[Stated],
    seats: u8,
    quota: u32,
) -> Option<(PlainDesk, Vec<Seat<Shown>>, Vec<View>)>
    requires some { 1 ≤ seats }
    requires most { seats ≤ LAST_CALLER }
    requires calls { 1 ≤ quota }
    ensures seats { IfSome result (λ made. All (IsSeatOf made.0) made.1.items) }
    ensures views { IfSome result (λ made. All (IsViewOf made.0) made.2.items) }
{
    let opening = opening()?;
    let calls = u32::from(seats).checked_mul(quota)?;
    let book = book(alloc, opening, setup, calls)?;
    book.is_legal();
    let wall = NewWall::with_entries(alloc, &opening, book.entries()).ok()?;
    ShownDesk::new(rt, alloc, book, wall, seats, quota).ok()
}

/// Takes the last of a desk's seats.
pub fn take_last(desk: &PlainDesk, seats: &mut Vec<Seat<Shown>>) -> Option<Seat<Shown>>
    requires { All (IsSeatOf desk.now) seats.old.items }
    ensures seat { IfSome result (IsSeatOf desk.now) }
    ensures others { All (IsSeatOf desk.now) seats.new.items }
    ensures room { IfSome result (λ _. vec_len seats.new < vec_capacity seats.new) }
{
    let _ = desk;
    seats.pop()
}

/// A call by a seat that has one left: the entry, and what is shown then.
pub fn call<R: Wait + Abort>(
    rt: &R,
    desk: &PlainDesk,
    seat: Seat<Shown>,
    stated: Stated,
) -> (Entry, Showing, Seat<Shown>)
    requires { IsSeatOf desk.now seat }
    ensures wall { IsWallOf desk.now result.1.note.wall }
    ensures seat { IsSeatOf desk.now result.2 }
{
    let CalledShown {
        seat,
        outcome,
        showing,
    } = desk.call(rt, seat, stated);
    match (outcome, showing) {
        (Ok(receipt), Some(showing)) => (receipt.entry, showing, seat),
        _ => panic!(rt; "the seat has a call left"),
    }
}

/// Lets a view learn a note of its desk.
pub fn learn(desk: &PlainDesk, view: &mut View, note: Note)
    requires view { IsViewOf desk.now view.old }
    requires note { IsWallOf desk.now note.wall }
    ensures { view.new.wall ≡ view.old.wall }
{
    let _ = desk;
    a_desk_has_one_wall();
    view.learn(note);
}

/// The book of a desk that is closed, where these are all seats but one, and that is the last. There is room for it among them.
pub fn close<R: Wait + Abort>(
    rt: &R,
    desk: PlainDesk,
    seats: Vec<Seat<Shown>>,
    last: Seat<Shown>,
) -> Book<PlainCore>
    requires seats { All (IsSeatOf desk) seats.items }
    requires last { IsSeatOf desk last }
    requires room { vec_len seats < vec_capacity seats }
{
    let mut seats = seats;
    seats.push_reserved(last);
    match desk.close(rt, seats) {
        Ok(book) => book,
        Err(_) => panic!(rt; "all seats were given"),
    }
}

/// What a view sees at a place of a board.
pub fn look(view: &mut View, board: &[u8], place: u16) -> Option<Look>
    ensures { view.new.wall ≡ view.old.wall }
{
    view.look(Code::read(board)?, place)
}

/// How many entries a view sees.
pub fn count_seen(view: &mut View) -> Option<u32>
    ensures { view.new.wall ≡ view.old.wall }
{
    match look(view, b"P1", 1) {
        Some(Look { seen, .. }) => Some(seen),
        None => None,
    }
}

/// A look by so many entries that sees this person.
pub fn saw(seen: u32, person: u32) -> Option<Look> {
    let person = PersonNo::new(person)?;
    Some(Look {
        seen,
        what: Spot::Person(person),
    })
}

/// Just these persons are seen on a board, in this order, by so many entries.
pub fn has_order(view: &mut View, seen: u32, board: &[u8], persons: &[u32]) -> bool
    ensures { view.new.wall ≡ view.old.wall }
{
    for (place, person) in (1..501).zip(persons) {
        if look(view, board, place) != saw(seen, *person) {
            return false;
        }
    }
    let length = persons.len().min(500) as u16;
    let what = Spot::NoOne { length };
    look(view, board, length + 1) == Some(Look { seen, what })
}
