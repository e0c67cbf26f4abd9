//! Chains of boards against a reading of them position by position. The judge bars persons of odd numbers; whoever isn't ready has one.
ghost use Rattle.std.specs.Prelude.{◌≡◌, ◌<◌, ◌≤◌, length};
ghost use Rattle.std.specs.List.{All};

use crate::given::{minute, person};
use denial_rules::Bar;
use desk_base::{Code, IndexHints, Minute, PersonNo};
use pool_board::Board;
use slot_tree::Steps;
use std::alloc::Global;
use std::marker::Brand;
use std::sync::ledger::{Blank, Ledger};
use std::test::Fail;
use vacancy_fill::{Found, Judge, first};

struct Odd;

impl Judge for Odd {
    ghost use Rattle.std.specs.Prelude.{◌≡◌, ℕ, ◌%◌, ◌==◌, Some, None, if◌then◌else◌};
    ghost use Rattle.denial_rules.specs.declared.bar.Bar.TheVariants.{Answered};

    ghost judges = { λ _ barred. (p : ℕ) → barred p ≡ (if p % 2 == 1 then Some Answered else None) };

    fn bar(&self, person: PersonNo) -> Option<Bar> {
        if person.number() % 2 == 1 {
            Some(Bar::Answered)
        } else {
            None
        }
    }
}

// Whether a person is ready at the minute, or has an odd number.
fn may_stand(person: PersonNo, ready: Minute, m: Minute) -> bool {
    ready <= m || person.number() % 2 == 1
}

// Puts a person at the bottom who may stand there and isn't listed.
fn put(board: &mut Board, hints: &mut IndexHints, person: PersonNo, ready: Minute, m: Minute) {
    if board.position(person, hints).is_none() && may_stand(person, ready, m) {
        match board.list(person, ready, hints) {
            Ok(()) => {}
            Err(_) => {}
        }
    }
}

fn board(alloc: Global, members: &[(u32, u64)], m: Minute) -> Result<Board, Fail> {
    let place = Code::read(b"HOM").ok_or("no code")?;
    let mut board = Board::new(alloc, 0, place, false)?;
    let mut hints = Board::hints(alloc)?;
    for (number, ready) in members {
        put(&mut board, &mut hints, person(*number)?, minute(*ready)?, m);
    }
    Ok(board)
}

fn first_of<L: Ledger>(blank: Blank, boards: &[Board], chain: &[u8], m: Minute) -> Option<Found>
    requires name { blank.name ≡ L.name }
    requires parts { blank.parts ≡ L.parts }
    requires some { 0 < blank.parts }
    requires few { length chain.now ≤ 4 }
    requires boards { All (λ index. index < length boards.now) chain.now }
{
    let mut steps = Steps::<L>::new(blank);
    first(boards, chain, &Odd, m, &mut steps)
}

// The first of two boards at minute 100, each of these members.
fn found(
    alloc: Global,
    pool: &[(u32, u64)],
    extra: &[(u32, u64)],
) -> Result<Option<(u8, u32, u16)>, Fail> {
    let m = minute(100)?;
    let boards = [board(alloc, pool, m)?, board(alloc, extra, m)?];
    match first_of::<Brand>(Blank::new(1), &boards, &[0, 1], m) {
        Some(found) => Ok(Some((found.link, found.person.number(), found.position))),
        None => Ok(None),
    }
}

#[test]
fn the_first_without_a_bar(rt: HostRuntime) -> Result<(), Fail> {
    let all = rt.alloc();
    // one who isn't ready, one barred, and then the second board's
    assert_eq!(rt;
        found(all, &[(5, 101), (7, 100)], &[(9, 3), (4, 100), (6, 1)])?,
        Some((1, 4, 2))
    );
    // the first in order, and not the longest rested
    assert_eq!(rt;
        found(all, &[(7, 1), (8, 100), (2, 0)], &[(4, 0)])?,
        Some((0, 8, 2))
    );
    assert_eq!(rt; found(all, &[], &[(2, 100)])?, Some((1, 2, 1)));
    assert_eq!(rt; found(all, &[(1, 0), (3, 200)], &[(1, 0)])?, None);
    Ok(())
}
