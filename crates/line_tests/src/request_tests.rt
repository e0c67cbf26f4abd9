//! Lines heard as looks at a board and as crew calls.
use caller_lines::{CallerLine, MemoryLine, Request, Said, hear_request};
use desk_base::{Code, Minute, VacNo};
use std::alloc::Global;
use std::test::Fail;

// What a line is to be heard as.
#[derive(Clone, Copy, Debug)]
enum Want {
    Look(&'static [u8], u16),
    Crew(&'static [u8], u32, u32),
    Command,
    Malformed(u8),
    TooLong,
}

const WANTED: [(&[u8], Want); 32] = [
    (b"look,P1,1", Want::Look(b"P1", 1)),
    (b"look,EXTRA9,9999", Want::Look(b"EXTRA9", 9_999)),
    (b"\"look\",P1,2", Want::Look(b"P1", 2)),
    (b"\n\nlook,P1,\"3\"\n", Want::Look(b"P1", 3)),
    (b"look,P1,1\r\n", Want::Look(b"P1", 1)),
    (b"look,P1,1\nlook,P1,2", Want::Malformed(0)),
    (b"look", Want::Malformed(1)),
    (b"look,P1", Want::Malformed(1)),
    (b"look,P1,1,", Want::Malformed(1)),
    (b"look,P1,0", Want::Malformed(1)),
    (b"look,P1,10000", Want::Malformed(1)),
    (b"look,P1,65537", Want::Malformed(1)),
    (b"look,P1,01", Want::Malformed(1)),
    (b"look,P1,", Want::Malformed(1)),
    (b"look,p1,1", Want::Malformed(1)),
    (b"look,EXTRA10,1", Want::Malformed(1)),
    (b"look,,1", Want::Malformed(1)),
    (b"Look,P1,1", Want::Malformed(1)),
    (b" look,P1,1", Want::Malformed(1)),
    (
        b"2024-03-04 00:04,crew,1,2",
        Want::Crew(b"2024-03-04 00:04", 1, 2),
    ),
    (
        b"2099-12-31 23:59,crew,9999999,9999999\r\n",
        Want::Crew(b"2099-12-31 23:59", 9_999_999, 9_999_999),
    ),
    (
        b"\n\"2024-03-04 00:04\",\"crew\",7,\"8\"",
        Want::Crew(b"2024-03-04 00:04", 7, 8),
    ),
    (
        b"2024-03-04 00:04,crew,1,2\n2024-03-04 00:04,crew,1,2",
        Want::Malformed(0),
    ),
    (b"2024-03-04 00:04,crew,1", Want::Malformed(2)),
    (b"2024-03-04 00:04,crew,1,2,", Want::Malformed(2)),
    (b"2024-03-04 00:04,crew,1,0", Want::Malformed(2)),
    (b"2024-03-04 00:04,crew,01,2", Want::Malformed(2)),
    (b"2024-03-04 00:04,Crew,1,2", Want::Malformed(2)),
    (b"2024-03-04 24:00,crew,1,2", Want::Malformed(1)),
    (b"", Want::Malformed(0)),
    (b"2024-03-04 00:01,at,P1,1", Want::Command),
    (&[b'x'; 513], Want::TooLong),
];

fn is_so(said: Request, want: Want) -> bool {
    match said {
        Request::Look { board, position } => is_look(board, position, want),
        Request::Crew {
            minute,
            first,
            second,
        } => is_crew(minute, first, second, want),
        Request::Said(said) => is_said(said, want),
    }
}

fn is_look(board: Code, position: u16, want: Want) -> bool {
    match want {
        Want::Look(code, number) => Code::read(code) == Some(board) && position == number,
        _ => false,
    }
}

fn is_crew(minute: Minute, first: VacNo, second: VacNo, want: Want) -> bool {
    match want {
        Want::Crew(at, one, other) => {
            Minute::read(at) == Some(minute) && first.number() == one && second.number() == other
        }
        _ => false,
    }
}

fn is_said(said: Said, want: Want) -> bool {
    match (said, want) {
        (Said::Command(_), Want::Command) => true,
        (Said::Malformed(field), Want::Malformed(wrong)) => field == wrong,
        (Said::TooLong, Want::TooLong) => true,
        _ => false,
    }
}

// A line in memory that gives all these, the first call of which fails.
fn line_of(alloc: Global) -> Result<MemoryLine, Fail> {
    let mut lines = Vec::new(alloc);
    for (text, _) in WANTED {
        lines.push(text.to_vec(alloc)?)?;
    }
    let failing = vec![in alloc; 1]?;
    Ok(
        MemoryLine::new(alloc, lines, failing, 0)
            .ok()
            .ok_or("memory")?,
    )
}

#[test]
fn what_is_a_look_or_a_crew_call_and_what_is_neither(rt: HostRuntime) -> Result<(), Fail> {
    let alloc = rt.alloc();
    let mut line: Box<dyn CallerLine + Send> = Box::new(alloc, line_of(alloc)?)?;
    let first = hear_request(alloc, &mut line);
    assert!(rt; matches!(first, Request::Said(Said::LineFault)));
    for (number, (_, want)) in WANTED.iter().enumerate() {
        let said = hear_request(alloc, &mut line);
        assert!(rt; is_so(said, *want), "line {number}: {said:?} for {want:?}");
    }
    let last = hear_request(alloc, &mut line);
    assert!(rt; matches!(last, Request::Said(Said::End)));
    Ok(())
}
