//! Boards against lists that are changed by hand.
ghost use Rattle.std.specs.Prelude.{◌≡◌, ◌<◌, ◌≤◌, IfSome, length, vec_len};

use crate::given::{Draws, minute, person};
use desk_base::{Code, IndexHints, Minute};
use pool_board::{Board, MOST_MEMBERS};
use slot_tree::Steps;
use std::alloc::Global;
use std::marker::Brand;
use std::sync::ledger::{Blank, Ledger};
use std::test::Fail;

// A board with its hints.
#[derive(Drop)]
struct Kept {
    board: Board,
    hints: IndexHints,
}

fn board(alloc: Global) -> Result<Kept, Fail> {
    let place = Code::read(b"HOM").ok_or("no code")?;
    let board = Board::new(alloc, 7, place, true)?;
    let hints = Board::hints(alloc)?;
    Ok(Kept { board, hints })
}

// Whether a person who isn't listed was put at the bottom.
fn list(kept: &mut Kept, number: u32, ready: u64) -> Result<bool, Fail> {
    let person = person(number)?;
    if kept.board.position(person, &kept.hints).is_some() {
        return Err("listed".into());
    }
    let ready = minute(ready)?;
    Ok(kept.board.list(person, ready, &mut kept.hints).is_ok())
}

// What is done to a listed person.
#[derive(Clone, Copy)]
enum Act {
    Unlist,
    ToBottom,
    ToBottomReady(u64),
    Ready(u64),
}

fn act_on_board(kept: &mut Kept, number: u32, act: Act) -> Result<(), Fail> {
    let person = person(number)?;
    if kept.board.position(person, &kept.hints).is_none() {
        return Err("not listed".into());
    }
    let (board, hints) = (&mut kept.board, &mut kept.hints);
    match act {
        Act::Unlist => board.unlist(person, hints),
        Act::ToBottom => board.to_bottom(person, hints),
        Act::ToBottomReady(ready) => board.to_bottom_ready(person, minute(ready)?, hints),
        Act::Ready(ready) => board.set_ready(person, minute(ready)?, hints),
    }
    Ok(())
}

// The same of the list that a board should stand for.
fn act_on_list(order: &mut Vec<(u32, u64)>, index: usize, act: Act)
    requires { index < vec_len order.old }
{
    match act {
        Act::Unlist => {
            order.remove(index);
        }
        Act::ToBottom => order[index..].rotate_left(1),
        Act::ToBottomReady(ready) => {
            order[index].1 = ready;
            order[index..].rotate_left(1);
        }
        Act::Ready(ready) => order[index].1 = ready,
    }
}

// The first position that is ready, with a count of steps of its own.
fn ready_of<L: Ledger>(blank: Blank, board: &Board, position: u16, m: Minute) -> Option<u16>
    requires name { blank.name ≡ L.name }
    requires parts { blank.parts ≡ L.parts }
    requires some { 0 < blank.parts }
    requires position { 1 ≤ position }
{
    let mut steps = Steps::<L>::new(blank);
    board.ready_from(position, m, &mut steps)
}

fn ready_from(board: &Board, position: u16, m: Minute) -> Option<u16>
    requires { 1 ≤ position }
{
    ready_of::<Brand>(Blank::new(1), board, position, m)
}

// The numbers of the persons, from the first position on.
fn stands_as(board: &Board, numbers: &[(u32, u64)]) -> bool {
    let mut position = 0_u16;
    for (number, _) in numbers {
        position = position.saturating_add(1);
        match board.at(position) {
            Some(person) if person.number() == *number => {}
            _ => return false,
        }
    }
    board.length() == position && board.at(position.saturating_add(1)).is_none()
}

#[test]
fn two_full_rounds(rt: HostRuntime) -> Result<(), Fail> {
    let mut full = board(rt.alloc())?;
    let mut order = Vec::new(rt.alloc());
    for number in 1..501_u32 {
        assert!(rt; list(&mut full, number, 7)?);
        order.push((number, 7))?;
    }
    assert_eq!(rt; full.board.length(), MOST_MEMBERS);
    assert!(rt; !list(&mut full, 501, 7)?);
    assert!(rt; stands_as(&full.board, &order));
    for _ in 0..1_000 {
        let first = full.board.at(1).ok_or("nobody")?;
        act_on_board(&mut full, first.number(), Act::ToBottom)?;
    }
    assert!(rt; stands_as(&full.board, &order));
    Ok(())
}

// A board from which all were taken becomes a pool.
fn starts_again(board: &mut Board) -> Result<(), Fail> {
    if board.length() != 0 {
        return Err("somebody is listed".into());
    }
    let place = board.place();
    board.restart(place, false);
    Ok(())
}

fn three(alloc: Global) -> Result<Kept, Fail> {
    let mut pool = board(alloc)?;
    for (number, ready) in [(7, 300), (8, 100), (9, 200)] {
        list(&mut pool, number, ready)?;
    }
    Ok(pool)
}

#[test]
fn the_first_in_order_and_not_the_longest_rested(rt: HostRuntime) -> Result<(), Fail> {
    let pool = three(rt.alloc())?;
    let asked = [
        (1, 300, Some(1)),
        (1, 200, Some(2)),
        (3, 199, None),
        (3, 200, Some(3)),
    ];
    for (from, m, expected) in asked {
        assert_eq!(rt; ready_from(&pool.board, from, minute(m)?), expected);
    }
    Ok(())
}

#[test]
fn who_is_taken_off_is_on_it_no_more(rt: HostRuntime) -> Result<(), Fail> {
    let mut pool = three(rt.alloc())?;
    act_on_board(&mut pool, 8, Act::Unlist)?;
    for (number, expected) in [(6, false), (7, true), (8, false), (9, true)] {
        assert_eq!(rt; pool.board.has(person(number)?, &pool.hints), expected);
    }
    Ok(())
}

#[test]
fn a_board_starts_again(rt: HostRuntime) -> Result<(), Fail> {
    let mut pool = three(rt.alloc())?;
    let copy = pool.board.copy(rt.alloc())?;
    for number in 7..10 {
        act_on_board(&mut pool, number, Act::Unlist)?;
    }
    starts_again(&mut pool.board)?;
    assert!(rt; stands_as(&pool.board, &[]) && !pool.board.is_extra());
    assert!(rt; stands_as(&copy, &[(7, 300), (8, 100), (9, 200)]) && copy.is_extra());
    Ok(())
}

// Where a person stands in the list, from 0.
fn index_of(order: &[(u32, u64)], number: u32) -> Option<usize>
    ensures { IfSome result (λ index. index < length order.now) }
{
    for i in 0..order.len() {
        if order[i].0 == number {
            return Some(i);
        }
    }
    None
}

fn drawn_act(draws: &mut Draws) -> Act {
    match draws.below(8) {
        0 => Act::Unlist,
        1 | 2 => Act::Ready(u64::from(draws.below(100))),
        3 | 4 => Act::ToBottomReady(u64::from(draws.below(100))),
        _ => Act::ToBottom,
    }
}

// One change of the board, and of the list that it should stand for.
fn change(board: &mut Kept, order: &mut Vec<(u32, u64)>, draws: &mut Draws) -> Result<(), Fail> {
    let number = 1 + draws.below(30);
    match index_of(order, number) {
        None => {
            let ready = u64::from(draws.below(100));
            list(board, number, ready)?;
            order.push((number, ready))?;
        }
        Some(index) => {
            let drawn = drawn_act(draws);
            act_on_board(board, number, drawn)?;
            act_on_list(order, index, drawn);
        }
    }
    Ok(())
}

// The first position of the list, from one on, that is ready.
fn scanned(order: &[(u32, u64)], from: u16, m: u64) -> Option<u16> {
    let mut position = 0_u16;
    for (_, ready) in order {
        position = position.saturating_add(1);
        if position >= from && *ready <= m {
            return Some(position);
        }
    }
    None
}

#[test]
fn changes_as_a_list(rt: HostRuntime) -> Result<(), Fail> {
    let mut pool = board(rt.alloc())?;
    let mut order = Vec::new(rt.alloc());
    let mut draws = Draws { state: 11 };
    for _ in 0..4_000 {
        change(&mut pool, &mut order, &mut draws)?;
        assert!(rt; stands_as(&pool.board, &order));
        let from = 1 + draws.below(32) as u16;
        let m = u64::from(draws.below(100));
        assert_eq!(rt;
            ready_from(&pool.board, from, minute(m)?),
            scanned(&order, from, m)
        );
    }
    Ok(())
}
