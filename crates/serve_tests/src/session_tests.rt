//! Sessions of one line in memory.
ghost use Rattle.std.specs.Prelude.{IfSome};
ghost use Rattle.turn_gate.specs.Seats.{IsSeatOf};

use crate::openings::{LOOK, has_puts, line_of, new_book};
use call_history::Book;
use caller_lines::{CallerLine, MemoryLine};
use desk_shared::Desk;
use plain_core::PlainCore;
use serve_desk::{CALLS_PER_LINE, Why, session};
use std::alloc::Global;
use std::sync::Wait;
use std::test::Fail;
use turn_gate::Seat;

const REPLY: &[u8] = b"1|2024-03-04 00:01,at,P1,1|2024-03-04 00:01|unknown board P1\n";

// A new desk with one seat, which has 5,000 calls.
fn open(alloc: Global) -> Option<(Desk<PlainCore>, Seat<Book<PlainCore>>)>
    ensures { IfSome result (λ made. IsSeatOf made.0 made.1) }
{
    let book = new_book(alloc, CALLS_PER_LINE)?;
    let (desk, mut seats) = Desk::new(alloc, book, 1, CALLS_PER_LINE).ok()?;
    let seat = seats.pop()?;
    Some((desk, seat))
}

// Why the line's session at a new desk ended, and how many calls were made in it.
fn ends<R: Wait>(
    rt: &R,
    alloc: Global,
    line: &mut Box<dyn CallerLine + Send>,
) -> Option<(Why, u32)> {
    let (desk, seat) = open(alloc)?;
    let ended = session(rt, alloc, &desk, seat, line);
    Some((ended.why, ended.taken))
}

// Of a line that gives these lines, fails at these of its calls and has room for 150 bytes of puts: why its session ended, how
// many calls were made in it, and whether just these texts were put.
fn session_of<R: Wait>(
    rt: &R,
    alloc: Global,
    gives: &[&[u8]],
    failing: &[u64],
    puts: &[&[u8]],
) -> Option<(Why, u32, bool)> {
    let mut line = line_of(alloc, gives, failing, 150)?;
    let (why, taken) = ends(rt, alloc, &mut line)?;
    Some((why, taken, has_puts(&line, puts)))
}

#[test]
fn what_follows_each_answer(rt: HostRuntime) {
    let alloc = rt.alloc();
    let nothing = session_of(&rt, alloc, &[], &[], &[]);
    assert_eq!(rt; nothing, Some((Why::End, 0, true)));
    let two = b"2024-03-04 00:01,vac,\"1\"\n2024-03-04 00:01,vac,2".as_slice();
    let wrong = b"2024-03-04 00:01,vac,x".as_slice();
    let long = [b'a'; 513];
    let gives = &[b"".as_slice(), &long, two, wrong, LOOK];
    let puts = &[
        b"malformed 0\n".as_slice(),
        b"too long\n",
        b"malformed 0\n",
        b"malformed 3\n",
        REPLY,
    ];
    let all = session_of(&rt, alloc, gives, &[], puts);
    assert_eq!(rt; all, Some((Why::End, 1, true)));
}

#[test]
fn what_follows_a_fault(rt: HostRuntime) {
    let alloc = rt.alloc();
    let gives = &[LOOK, LOOK, LOOK];
    let first_line = session_of(&rt, alloc, gives, &[1], &[]);
    assert_eq!(rt; first_line, Some((Why::LineFault, 0, true)));
    let third_line = session_of(&rt, alloc, gives, &[5], &[REPLY, REPLY]);
    assert_eq!(rt; third_line, Some((Why::LineFault, 2, true)));
    // the entry stands whose line isn't taken
    let first_reply = session_of(&rt, alloc, gives, &[2], &[]);
    assert_eq!(rt; first_reply, Some((Why::LineFault, 1, true)));
    let no_room = session_of(&rt, alloc, gives, &[], &[REPLY, REPLY]);
    assert_eq!(rt; no_room, Some((Why::LineFault, 3, true)));
    let malformed = session_of(&rt, alloc, &[b"", LOOK], &[2], &[]);
    assert_eq!(rt; malformed, Some((Why::LineFault, 0, true)));
}

#[test]
fn the_command_behind_the_last_call(rt: HostRuntime) -> Result<(), Fail> {
    let alloc = rt.alloc();
    let looks = [LOOK; 5_002];
    let mut line = line_of(alloc, looks.as_slice(), &[], 1_000_000).ok_or("memory")?;
    let ended = ends(&rt, alloc, &mut line);
    assert_eq!(rt; ended, Some((Why::Spent, 5_000)));
    assert_eq!(rt; line.put_count(), 5_001);
    for number in 1..5_001 {
        assert!(rt; line.was_put(number, REPLY), "the reply {number}");
    }
    assert!(rt; line.was_put(5_001, b"spent\n"));
    Ok(())
}

// The first line is too long, and the others are empty.
#[test]
fn the_last_line_that_is_heard(rt: HostRuntime) -> Result<(), Fail> {
    let alloc = rt.alloc();
    for (count, why) in [(10_000, Why::End), (10_002, Why::TooManyLines)] {
        let mut lines = Vec::new(alloc);
        lines.push([b'a'; 513].to_vec(alloc)?)?;
        for _ in 1..count {
            lines.push(Vec::new(alloc))?;
        }
        let line = MemoryLine::new(alloc, lines, Vec::new(alloc), 200_000);
        let mut line: Box<dyn CallerLine + Send> = Box::new(alloc, line.ok().ok_or("memory")?)?;
        let ended = ends(&rt, alloc, &mut line);
        assert_eq!(rt; ended, Some((why, 0)));
        assert!(rt; line.was_put(1, b"too long\n"));
        for number in 2..10_001 {
            assert!(rt;
                line.was_put(number, b"malformed 0\n"),
                "the reply {number}"
            );
        }
        assert_eq!(rt;
            line.was_put(10_001, b"too many\n"),
            why == Why::TooManyLines
        );
        assert_eq!(rt; line.put_count(), count.min(10_001));
    }
    Ok(())
}
