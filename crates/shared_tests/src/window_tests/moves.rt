//! Where declines, final releases, marks and changes of a list send whom on two boards.
ghost use Rattle.std.specs.Prelude.{◌≡◌};
ghost use Rattle.turn_gate.specs.Seats.{IsSeatOf};
ghost use Rattle.desk_shared.specs.Shown.{IsViewOf};

use super::desks::{PlainDesk, Shown, call, close, has_order, learn, open, stated, take_last};
use board_window::View;
use command_parser::read_command;
use desk_model::Booked;
use std::alloc::Global;
use std::process::Abort;
use std::sync::Wait;
use std::test::Fail;
use turn_gate::Seat;

// A command, and the persons on P1 and on X2 after it, in their order.
type Row = (&'static [u8], &'static [u32], &'static [u32]);

const BOTH: [&[u8]; 12] = [
    b"2024-03-04 00:01,board,P1,pool,HOM",
    b"2024-03-04 00:01,board,X2,extra,AWY",
    b"2024-03-04 00:01,enrol,101,E,HOM,-",
    b"2024-03-04 00:01,enrol,102,E,HOM,-",
    b"2024-03-04 00:01,enrol,103,E,HOM,-",
    b"2024-03-04 00:02,list,101,P1",
    b"2024-03-04 00:02,list,102,P1",
    b"2024-03-04 00:02,list,103,P1",
    b"2024-03-04 00:02,list,101,X2",
    b"2024-03-04 00:02,list,102,X2",
    b"2024-03-04 00:02,list,103,X2",
    b"2024-03-04 00:03,vacancy,1,E,-,HOM,2024-03-04 08:00,600,0,P1+X2",
];

// The first decline is of an offer from P1, and the second of one from X2. P1 is at HOM and X2 at AWY, and at FAR is no board.
const MOVES: [Row; 17] = [
    (
        b"2024-03-04 00:03,vacancy,2,E,-,HOM,2024-03-04 08:00,600,0,X2",
        &[101, 102, 103],
        &[101, 102, 103],
    ),
    (
        b"2024-03-04 00:10,next,1",
        &[101, 102, 103],
        &[101, 102, 103],
    ),
    (
        b"2024-03-04 00:10,decline,1,101",
        &[102, 103, 101],
        &[101, 102, 103],
    ),
    (
        b"2024-03-04 00:11,next,2",
        &[102, 103, 101],
        &[101, 102, 103],
    ),
    (
        b"2024-03-04 00:11,decline,2,101",
        &[102, 103, 101],
        &[102, 103, 101],
    ),
    (
        b"2024-03-04 00:20,event,102,duty,2024-03-04 00:20",
        &[102, 103, 101],
        &[102, 103, 101],
    ),
    (
        b"2024-03-04 00:30,event,102,final,2024-03-04 00:30,HOM",
        &[103, 101, 102],
        &[102, 103, 101],
    ),
    (
        b"2024-03-04 00:40,event,103,duty,2024-03-04 00:40",
        &[103, 101, 102],
        &[102, 103, 101],
    ),
    (
        b"2024-03-04 00:50,event,103,final,2024-03-04 00:50,AWY",
        &[103, 101, 102],
        &[102, 101, 103],
    ),
    (
        b"2024-03-04 01:00,event,101,duty,2024-03-04 01:00",
        &[103, 101, 102],
        &[102, 101, 103],
    ),
    (
        b"2024-03-04 01:10,event,101,final,2024-03-04 01:10,FAR",
        &[103, 101, 102],
        &[102, 101, 103],
    ),
    (
        b"2024-03-04 01:20,off,101",
        &[103, 101, 102],
        &[102, 101, 103],
    ),
    (
        b"2024-03-04 01:20,on,101",
        &[103, 102, 101],
        &[102, 103, 101],
    ),
    (
        b"2024-03-04 01:20,on,102",
        &[103, 102, 101],
        &[102, 103, 101],
    ),
    (
        b"2024-03-04 01:20,decline,1,102",
        &[103, 102, 101],
        &[102, 103, 101],
    ),
    (
        b"2024-03-04 01:30,unlist,103,P1",
        &[102, 101],
        &[102, 103, 101],
    ),
    (
        b"2024-03-04 01:30,list,103,P1",
        &[102, 101, 103],
        &[102, 103, 101],
    ),
];

// The number of entries by which a board first has another order than the row of the last says.
fn first_unlike<R: Wait + Abort>(
    rt: &R,
    alloc: Global,
    desk: &PlainDesk,
    seat: Seat<Shown>,
    view: &mut View,
) -> (Option<u32>, Seat<Shown>)
    requires seat { IsSeatOf desk.now seat }
    requires view { IsViewOf desk.now view.old }
    ensures { IsSeatOf desk.now result.1 }
{
    let mut seat = seat;
    for (seen, (line, on_p1, on_x2)) in (13..30).zip(&MOVES) {
        let Ok(stated) = read_command(alloc, line) else {
            panic!(rt; "no command")
        };
        let (_entry, showing, back) = call(rt, desk, seat, stated);
        seat = back;
        learn(desk, view, showing.note);
        if !has_order(view, seen, b"P1", on_p1) || !has_order(view, seen, b"X2", on_x2) {
            return (Some(seen), seat);
        }
    }
    (None, seat)
}

#[test]
fn who_is_sent_to_the_bottom_of_which_board(rt: HostRuntime) -> Result<(), Fail> {
    let alloc = rt.alloc();
    let setup = stated(alloc, &BOTH).ok_or("no commands")?;
    let (desk, mut seats, mut views) = open(&rt, alloc, &setup, 1, 17).ok_or("no desk")?;
    let Some(seat) = take_last(&desk, &mut seats) else {
        panic!(rt; "one seat is wanted")
    };
    let Some(mut view) = views.pop() else {
        panic!(rt; "one view is wanted")
    };
    let (unlike, seat) = first_unlike(&rt, alloc, &desk, seat, &mut view);
    assert_eq!(rt; unlike, None);
    let book = close(&rt, desk, seats, seat);
    assert_eq!(rt; book.count(), 29);
    Ok(())
}
