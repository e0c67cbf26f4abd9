//! Windows on a desk's boards: what looks see after calls, views that are told nothing, drawn commands, and memory that is wanting.
ghost use Rattle.std.specs.Prelude.{◌≡◌, ◌≤◌};
ghost use Rattle.std.specs.List.{All};
ghost use Rattle.desk_model.specs.declared.limits.TheConstants.{LAST_CALLER};
ghost use Rattle.turn_gate.specs.Seats.{IsSeatOf};
ghost use Rattle.desk_shared.specs.Shown.{IsViewOf};

use board_window::{Look, Spot, View};
use command_parser::read_command;
use desk_base::{Code, Minute};
use desk_model::{Booked, Cmd, DeskCore, LAST_CALLER, Reply, Stated};
use desks::{
    BASE, PlainDesk, Shown, call, close, count_seen, learn, look, open, plain_desk, saw, stated,
    take_last,
};
use drawn::{BOARDS, Course, SET_UP, kind};
use plain_core::PlainCore;
use std::alloc::Global;
use std::process::Abort;
use std::sync::Wait;
use std::test::Fail;
use turn_gate::Seat;

mod crews;
mod desks;
mod drawn;
mod moves;

// 101 is taken off P1.
fn unlist(alloc: Global) -> Option<Stated> {
    read_command(alloc, b"2024-03-04 00:05,unlist,101,P1").ok()
}

#[test]
fn looks_at_a_board(rt: HostRuntime) -> Result<(), Fail> {
    let alloc = rt.alloc();
    let setup = stated(alloc, &BASE).ok_or("no commands")?;
    let unlist = unlist(alloc).ok_or("no command")?;
    let (desk, mut seats, mut views) = open(&rt, alloc, &setup, 1, 1).ok_or("no desk")?;
    let Some(seat) = take_last(&desk, &mut seats) else {
        panic!(rt; "one seat is wanted")
    };
    let Some(mut view) = views.pop() else {
        panic!(rt; "one view is wanted")
    };
    assert_eq!(rt; look(&mut view, b"P1", 1), saw(5, 101));
    let (entry, showing, seat) = call(&rt, &desk, seat, unlist);
    assert_eq!(rt;
        (entry.reply(), showing.behind, showing.note.count()),
        (Reply::Done, 0, 6)
    );
    learn(&desk, &mut view, showing.note);
    assert_eq!(rt; look(&mut view, b"P1", 1), saw(6, 102));
    let what = Spot::NoOne { length: 1 };
    assert_eq!(rt; look(&mut view, b"P1", 2), Some(Look { seen: 6, what }));
    let what = Spot::NoBoard;
    assert_eq!(rt; look(&mut view, b"X9", 1), Some(Look { seen: 6, what }));
    let book = close(&rt, desk, seats, seat);
    assert_eq!(rt; (book.count(), book.left()), (6, 0));
    Ok(())
}

// Each view sees this person first on P1, by so many entries.
fn each_sees(views: &mut Vec<View>, seen: u32, person: u32) -> bool {
    for view in views.iter_mut() {
        if look(view, b"P1", 1) != saw(seen, person) {
            return false;
        }
    }
    true
}

// No view sees anything.
fn none_sees(views: &mut Vec<View>) -> bool {
    for view in views.iter_mut() {
        if look(view, b"P1", 1).is_some() {
            return false;
        }
    }
    true
}

// A desk with so many views that are told nothing, before and after a call of the last seat, and when it is closed.
fn untold<R: Wait + Abort>(rt: &R, alloc: Global, seats: u8) -> Option<()>
    requires some { 1 ≤ seats }
    requires most { seats ≤ LAST_CALLER }
{
    let setup = stated(alloc, &BASE)?;
    let unlist = unlist(alloc)?;
    let (desk, mut others, mut views) = open(rt, alloc, &setup, seats, 1)?;
    let Some(seat) = take_last(&desk, &mut others) else {
        panic!(rt; "a seat is wanted")
    };
    assert_eq!(rt; views.len(), usize::from(seats));
    assert!(rt; each_sees(&mut views, 5, 101));
    let (entry, _showing, seat) = call(rt, &desk, seat, unlist);
    assert_eq!(rt; (entry.caller(), entry.reply()), (seats, Reply::Done));
    assert!(rt; each_sees(&mut views, 6, 102));
    let book = close(rt, desk, others, seat);
    assert_eq!(rt; book.count(), 6);
    assert!(rt; none_sees(&mut views) && none_sees(&mut views));
    Some(())
}

#[test]
fn views_that_are_told_nothing(rt: HostRuntime) {
    for seats in [1, 2, 63] {
        assert!(rt; untold(&rt, rt.alloc(), seats).is_some());
    }
}

// What a desk says of a place of a board at this minute.
fn said(core: &mut PlainCore, minute: Minute, board: Code, place: u16) -> Option<Spot> {
    let stated = Stated::new(minute, Cmd::At { board, place })?;
    if core.left() == 0 {
        return None;
    }
    match core.step(0, stated).reply() {
        Reply::Seen(person) => Some(Spot::Person(person)),
        Reply::NoOne { length } => Some(Spot::NoOne { length }),
        Reply::UnknownBoard(_) => Some(Spot::NoBoard),
        _ => None,
    }
}

// What a view sees at each place of a board, up to the first at which nobody stands, is what a desk says.
fn is_said(view: &mut View, core: &mut PlainCore, seen: u32, minute: Minute, board: Code) -> bool
    ensures { view.new.wall ≡ view.old.wall }
{
    for place in 1..501 {
        let Some(what) = said(core, minute, board, place) else {
            return false;
        };
        if view.look(board, place) != Some(Look { seen, what }) {
            return false;
        }
        if !matches!(&what, Spot::Person(_)) {
            return true;
        }
    }
    false
}

// So it is with each board.
fn all_is_said(view: &mut View, core: &mut PlainCore, seen: u32, minute: Minute) -> bool
    ensures { view.new.wall ≡ view.old.wall }
{
    for text in BOARDS {
        let Some(board) = Code::read(text) else {
            return false;
        };
        if !is_said(view, core, seen, minute, board) {
            return false;
        }
    }
    true
}

const DRAWN: u32 = 120;

// The first drawn command that a plain desk answers otherwise, or after which a place is seen otherwise, from 0. The view is told of
// every third.
fn first_otherwise<R: Wait + Abort>(
    rt: &R,
    alloc: Global,
    desk: &PlainDesk,
    seat: Seat<Shown>,
    view: &mut View,
    core: &mut PlainCore,
) -> (Option<u32>, Seat<Shown>)
    requires seat { IsSeatOf desk.now seat }
    requires view { IsViewOf desk.now view.old }
    ensures { IsSeatOf desk.now result.1 }
{
    let mut seat = seat;
    let mut course = Course {
        number: 11,
        minutes: 0,
        made: 0,
        asked: 0,
    };
    for number in 0..DRAWN {
        let Some(stated) = course.next(alloc) else {
            panic!(rt; "no command")
        };
        if core.left() == 0 {
            return (Some(number), seat);
        }
        let (entry, showing, back) = call(rt, desk, seat, stated);
        seat = back;
        if number % 3 == 0 {
            learn(desk, view, showing.note);
        }
        course.hear(&entry);
        let is_alike = core.step(0, stated).reply() == entry.reply();
        if !is_alike || !all_is_said(view, core, number + 22, entry.moment()) {
            return (Some(number), seat);
        }
    }
    (None, seat)
}

#[test]
fn each_place_is_seen_as_a_plain_desk_says(rt: HostRuntime) -> Result<(), Fail> {
    let alloc = rt.alloc();
    let setup = stated(alloc, &SET_UP).ok_or("no commands")?;
    let mut core = plain_desk(alloc, &setup, 100_000).ok_or("no plain desk")?;
    let (desk, mut seats, mut views) = open(&rt, alloc, &setup, 1, DRAWN).ok_or("no desk")?;
    let Some(seat) = take_last(&desk, &mut seats) else {
        panic!(rt; "one seat is wanted")
    };
    let Some(mut view) = views.pop() else {
        panic!(rt; "one view is wanted")
    };
    let (otherwise, seat) = first_otherwise(&rt, alloc, &desk, seat, &mut view, &mut core);
    assert_eq!(rt; otherwise, None);
    let book = close(&rt, desk, seats, seat);
    assert_eq!(rt; book.count(), 141);
    let kinds = book
        .entries()
        .iter()
        .skip(21)
        .fold(0, |all, entry| all | kind(entry));
    assert_eq!(rt; kinds, 255);
    Ok(())
}

// How many of forty calls fall behind. After each the view that is told of it sees the entries that are shown.
fn count_late<R: Wait + Abort>(
    rt: &R,
    desk: &PlainDesk,
    seat: Seat<Shown>,
    view: &mut View,
    stated: Stated,
) -> (u32, Seat<Shown>)
    requires seat { IsSeatOf desk.now seat }
    requires view { IsViewOf desk.now view.old }
    ensures { IsSeatOf desk.now result.1 }
{
    let mut seat = seat;
    let mut late: u32 = 0;
    for count in 6..46_u32 {
        let (_entry, showing, back) = call(rt, desk, seat, stated);
        seat = back;
        if showing.behind > 0 {
            late = late.saturating_add(1);
        }
        learn(desk, view, showing.note);
        assert_eq!(rt; count_seen(view), count.checked_sub(showing.behind));
    }
    (late, seat)
}

// Where one allocation fails as this is run, one call may fall behind, and the next shows both entries.
#[test]
fn a_call_that_falls_behind_is_caught_up(rt: HostRuntime) -> Result<(), Fail> {
    let alloc = rt.alloc();
    let setup = stated(alloc, &BASE).ok_or("no commands")?;
    let unlist = unlist(alloc).ok_or("no command")?;
    let (desk, mut seats, mut views) = open(&rt, alloc, &setup, 1, 40).ok_or("no desk")?;
    let Some(seat) = take_last(&desk, &mut seats) else {
        panic!(rt; "one seat is wanted")
    };
    let Some(mut view) = views.pop() else {
        panic!(rt; "one view is wanted")
    };
    let (late, seat) = count_late(&rt, &desk, seat, &mut view, unlist);
    assert!(rt; late <= 1, "{late} calls fell behind");
    let book = close(&rt, desk, seats, seat);
    assert_eq!(rt; book.count(), 45);
    Ok(())
}
