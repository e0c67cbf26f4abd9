//! Lines in memory that are served behind a day file.
use crate::openings::{LOOK, OPENING, has_puts, lines_of};
use caller_lines::CallerLine;
use desk_io::{MemorySink, MemorySource, Status};
use serve_desk::serve;
use std::alloc::Global;
use std::sync::Wait;
use std::test::Fail;
use std::thread::Threads;

// A desk with two engineers on the pool P1, and two vacancies.
const DAY: &[u8] = b"\
2024-03-04 00:00,open,2024-03,1,15
2024-03-04 00:01,board,P1,pool,HOM
2024-03-04 00:01,enrol,101,E,HOM,-
2024-03-04 00:01,enrol,102,E,HOM,-
2024-03-04 00:02,list,101,P1
2024-03-04 00:02,list,102,P1
2024-03-04 00:03,vacancy,1,E,-,HOM,2024-03-04 08:00,600,0,P1
2024-03-04 00:03,vacancy,2,E,-,HOM,2024-03-04 08:00,600,0,P1
";

// The journal of the desk with two engineers.
const JOURNAL: &[u8] = b"\
2024-03-04 00:00,open,2024-03,1,15
0|2024-03-04 00:01,board,P1,pool,HOM|2024-03-04 00:01|done
0|2024-03-04 00:01,enrol,101,E,HOM,-|2024-03-04 00:01|done
0|2024-03-04 00:01,enrol,102,E,HOM,-|2024-03-04 00:01|done
0|2024-03-04 00:02,list,101,P1|2024-03-04 00:02|done
0|2024-03-04 00:02,list,102,P1|2024-03-04 00:02|done
0|2024-03-04 00:03,vacancy,1,E,-,HOM,2024-03-04 08:00,600,0,P1|2024-03-04 00:03|done
0|2024-03-04 00:03,vacancy,2,E,-,HOM,2024-03-04 08:00,600,0,P1|2024-03-04 00:03|done
";

// Serves lines behind a day file, where the source and the sink fail at the calls of these numbers, from 1: the status, and what was
// written.
fn served<R: Threads + Wait + Sync>(
    rt: &R,
    alloc: Global,
    day: &[u8],
    failing: (u64, u64),
    lines: &mut Vec<Box<dyn CallerLine + Send>>,
) -> Option<(Status, MemorySink)> {
    let read_fails = vec![in alloc; failing.0].ok()?;
    let write_fails = vec![in alloc; failing.1].ok()?;
    let mut source = MemorySource::new(day.to_vec(alloc).ok()?, 100, read_fails);
    let mut sink = MemorySink::new(alloc, 1_000_000, 65_536, write_fails).ok()?;
    let status = serve(rt, alloc, &mut source, lines, &mut sink);
    Some((status, sink))
}

// The first line asks for the first vacancy and then how it stands, and the second for the other: the turns may fall in three ways,
// and in each the first line is told whom its own `next` was answered with.
#[test]
fn two_lines_behind_a_day_file(rt: HostRuntime) -> Result<(), Fail> {
    let alloc = rt.alloc();
    let given: [(&[&[u8]], u64); 2] = [
        (&[b"2024-03-04 00:04,next,1", b"2024-03-04 00:05,vac,1"], 0),
        (&[b"2024-03-04 00:04,next,2"], 0),
    ];
    let mut lines = lines_of(alloc, &given, 1_000).ok_or("memory")?;
    let (status, sink) = served(&rt, alloc, DAY, (0, 0), &mut lines).ok_or("no memory")?;
    assert!(rt; status == Status::Fine);
    let [one, two] = lines.as_slice() else {
        panic!(rt; "there are two lines")
    };
    let [first, second] = [
        b"1|2024-03-04 00:04,next,1|2024-03-04 00:04|offered 101 P1 1\n".as_slice(),
        b"1|2024-03-04 00:04,next,1|2024-03-04 00:04|offered 102 P1 2\n",
    ];
    let [with_first, with_second] = [
        b"1|2024-03-04 00:05,vac,1|2024-03-04 00:05|state offered 101\n".as_slice(),
        b"1|2024-03-04 00:05,vac,1|2024-03-04 00:05|state offered 102\n",
    ];
    let others = [
        b"2|2024-03-04 00:04,next,2|2024-03-04 00:04|offered 101 P1 1\n".as_slice(),
        b"2|2024-03-04 00:04,next,2|2024-03-04 00:04|offered 102 P1 2\n",
        b"2|2024-03-04 00:04,next,2|2024-03-04 00:05|offered 102 P1 2\n",
    ];
    let written = sink.bytes().strip_prefix(JOURNAL).ok_or("another day")?;
    let ways = [
        (
            [others[0], second, with_second],
            [second, with_second],
            others[0],
        ),
        (
            [first, others[1], with_first],
            [first, with_first],
            others[1],
        ),
        (
            [first, with_first, others[2]],
            [first, with_first],
            others[2],
        ),
    ];
    let mut met = false;
    for (whole, ours, theirs) in ways {
        if written == whole.concat(alloc)?.as_slice() {
            met = true;
            assert!(rt; has_puts(one, &ours) && has_puts(two, &[theirs]));
        }
    }
    assert!(rt; met);
    Ok(())
}

// The first line fails at each of its calls in turn: how many entries the journal has of it, and how many replies it has. The other
// has all of its own.
#[test]
fn one_line_fails_and_the_other_goes_on(rt: HostRuntime) -> Result<(), Fail> {
    let alloc = rt.alloc();
    let reply = b"2|2024-03-04 00:01,at,P1,1|2024-03-04 00:01|unknown board P1\n".as_slice();
    for (failing, entries, puts) in [(1, 0, 0), (2, 1, 0), (3, 1, 1), (4, 2, 1), (5, 2, 2)] {
        let given: [(&[&[u8]], u64); 2] = [(&[LOOK; 2], failing), (&[LOOK; 3], 0)];
        let mut lines = lines_of(alloc, &given, 1_000).ok_or("memory")?;
        let (status, sink) = served(&rt, alloc, OPENING, (0, 0), &mut lines).ok_or("memory")?;
        assert!(rt; status == Status::Fine);
        assert_eq!(rt;
            (lines_by(sink.bytes(), b'1'), lines_by(sink.bytes(), b'2')),
            (entries, 3)
        );
        let [one, two] = lines.as_slice() else {
            panic!(rt; "there are two lines")
        };
        assert_eq!(rt; one.put_count(), puts);
        assert!(rt; has_puts(two, &[reply, reply, reply]));
    }
    Ok(())
}

// A line whose first `next` fails has no entry.
#[test]
fn a_next_that_fails(rt: HostRuntime) -> Result<(), Fail> {
    let alloc = rt.alloc();
    let mut lines = lines_of(alloc, &[(&[LOOK], 1)], 100).ok_or("memory")?;
    let (status, sink) = served(&rt, alloc, OPENING, (0, 0), &mut lines).ok_or("memory")?;
    assert!(rt; status == Status::Fine && sink.bytes() == OPENING);
    assert!(rt; lines.iter().all(|line| line.put_count() == 0));
    Ok(())
}

// Nobody, and one more than there are seats: nothing is read, and nobody is asked.
#[test]
fn no_number_of_lines(rt: HostRuntime) -> Result<(), Fail> {
    let alloc = rt.alloc();
    let look = [LOOK];
    let given = [(look.as_slice(), 0); 64];
    for count in [0, 64] {
        let mut lines = lines_of(alloc, &given[..count], 100).ok_or("memory")?;
        let (status, sink) = served(&rt, alloc, DAY, (1, 1), &mut lines).ok_or("no memory")?;
        assert!(rt; status == Status::Usage && sink.bytes().is_empty());
        for line in &lines {
            assert!(rt; line.put_count() == 0);
        }
    }
    Ok(())
}

// How a run ends, what it writes, and how many replies its one line has.
#[test]
fn ways_to_end(rt: HostRuntime) -> Result<(), Fail> {
    let alloc = rt.alloc();
    let wrong = b"2024-03-04 00:00,open,2024-03,1,15\nunlist\n";
    let ways: [(&[u8], (u64, u64), Status, &[u8], u32); 5] = [
        (DAY, (1, 0), Status::ReadFault, b"", 0),
        (LOOK, (0, 0), Status::NoOpening, b"", 0),
        (wrong, (0, 0), Status::Unreadable, b"unreadable 2 1\n", 0),
        (wrong, (0, 1), Status::Unreadable, b"", 0),
        (OPENING, (0, 1), Status::WriteFault, b"", 1),
    ];
    for (day, failing, ends, text, replies) in ways {
        let mut lines = lines_of(alloc, &[(&[LOOK], 0)], 100).ok_or("memory")?;
        let (status, sink) = served(&rt, alloc, day, failing, &mut lines).ok_or("no memory")?;
        assert!(rt; status == ends);
        assert!(rt; sink.bytes() == text);
        for line in &lines {
            assert!(rt; line.put_count() == replies);
        }
    }
    Ok(())
}

// A line of 5,001 commands, one that fails at its third read, and one whose first put fails: how many replies each has, and how many
// entries the journal has of each.
#[test]
fn spent_and_failing_lines(rt: HostRuntime) -> Result<(), Fail> {
    let alloc = rt.alloc();
    let looks = [LOOK; 5_001];
    let given = [(looks.as_slice(), 0), (&looks[..3], 5), (&looks[..1], 2)];
    let mut lines = lines_of(alloc, &given, 1_000_000).ok_or("memory")?;
    let (status, sink) = served(&rt, alloc, OPENING, (0, 0), &mut lines).ok_or("no memory")?;
    assert!(rt; status == Status::Fine);
    let [one, two, three] = lines.as_slice() else {
        panic!(rt; "there are three lines")
    };
    assert!(rt; one.put_count() == 5_001 && one.was_put(5_001, b"spent\n"));
    assert!(rt; two.put_count() == 2 && three.put_count() == 0);
    assert!(rt; lines_by(sink.bytes(), b'1') == 5_000);
    assert!(rt; lines_by(sink.bytes(), b'2') == 2);
    assert!(rt; lines_by(sink.bytes(), b'3') == 1);
    Ok(())
}

// How many lines of a journal begin with this caller's digit, behind the first.
fn lines_by(journal: &[u8], caller: u8) -> usize {
    journal
        .split(|byte| *byte == b'\n')
        .skip(1)
        .filter(|line| line.first() == Some(&caller))
        .count()
}
