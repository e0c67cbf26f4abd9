//! Lines whose callers state minutes ahead of a clock.
use caller_lines::{CallerLine, Heard, LineBuf, MemoryLine};
use desk_base::Minute;
use desk_io::{MemorySink, MemorySource};
use journal_device::MemoryDevice;
use kept_desk::{Guarded, Offset, SetClock, UntilEnd, open_desk, serve_kept};
use std::alloc::Global;
use std::test::Fail;

const DAY: &[u8] = b"2024-03-04 00:00,open,2024-03,1,15\n2024-03-04 00:01,board,P1,pool,HOM\n";

const JOURNAL: &[u8] = b"2024-03-04 00:00,open,2024-03,1,15\n\
    0|2024-03-04 00:01,board,P1,pool,HOM|2024-03-04 00:01|done\n\
    1|2024-03-04 00:12,at,P1,1|2024-03-04 00:12|no one 0\n\
    1|2024-03-11 00:05,at,P1,2|2024-03-11 00:05|no one 0\n";

// How many minutes ahead the lines may state.
const AHEAD: u32 = 10;

// A line that gives these lines, and is held against a clock that tells these minutes.
fn guarded(
    alloc: Global,
    said: &[&[u8]],
    minutes: &[&[u8]],
) -> Result<Guarded<MemoryLine, SetClock>, Fail> {
    let mut lines = Vec::new(alloc);
    for line in said {
        lines.push(line.to_vec(alloc)?)?;
    }
    let mut told = Vec::new(alloc);
    for minute in minutes {
        told.push(Minute::read(minute).ok_or("no minute")?)?;
    }
    let line = MemoryLine::new(alloc, lines, Vec::new(alloc), 1_000)?;
    Ok(Guarded::new(alloc, line, SetClock::new(told), AHEAD))
}

// The line gives these next, and then ends, and its puts are so many times the answer.
fn gives(
    alloc: Global,
    line: Guarded<MemoryLine, SetClock>,
    given: &[&[u8]],
    puts: u32,
    answer: &[u8],
) -> Result<bool, Fail> {
    let mut line = line;
    let mut bytes = LineBuf::new();
    for one in given {
        if line.next(&mut bytes) != Heard::Line || bytes.as_slice() != *one {
            return Ok(false);
        }
    }
    if line.next(&mut bytes) != Heard::End {
        return Ok(false);
    }
    let line = line.into_line();
    for number in 1..puts.saturating_add(1) {
        if !line.was_put(number, answer) {
            return Ok(false);
        }
    }
    Ok(line.put_count() == puts)
}

const NOW: &[u8] = b"2024-03-11 22:50";

const ANSWER: &[u8] = b"ahead 2024-03-11 22:50\n";

#[test]
fn commands_and_crew_calls_ahead_are_answered(rt: HostRuntime) -> Result<(), Fail> {
    let alloc = rt.alloc();
    let said = [
        b"2024-04-11 22:50,next,1".as_slice(),
        b"2024-03-11 23:01,next,1",
        b"2024-03-11 23:00,next,1",
        b"\"2024-03-11 23:01\",next,1",
        b"\"2024-03-11 23:00\",next,1",
        b"2024-04-11 22:50,crew,1,2",
        b"2024-03-11 23:01,crew,1,2",
        b"2024-03-11 23:00,crew,1,2",
        b"2024-03-11 23:01,\"crew\",1,2",
    ];
    let given = [
        b"2024-03-11 23:00,next,1".as_slice(),
        b"\"2024-03-11 23:00\",next,1",
        b"2024-03-11 23:00,crew,1,2",
    ];
    let line = guarded(alloc, &said, &[NOW, NOW, NOW, NOW, NOW, NOW, NOW, NOW, NOW])?;
    assert!(rt; gives(alloc, line, &given, 6, ANSWER)?);
    Ok(())
}

// Looks, lines that state nothing, and the word that ends a line.
#[test]
fn other_lines_pass(rt: HostRuntime) -> Result<(), Fail> {
    let alloc = rt.alloc();
    let said = [
        b"look,P1,1".as_slice(),
        b"2024-04-11 22:50,nothing,1",
        b"2024-04-11 22:50,crew,1",
        b"2024-04-11 22:50,crew,1,x",
        b"2024-04-31 22:50,next,1",
        b"end",
    ];
    let line = guarded(alloc, &said, &[NOW, NOW, NOW, NOW, NOW, NOW])?;
    assert!(rt; gives(alloc, line, &said, 0, ANSWER)?);
    Ok(())
}

#[test]
fn a_line_passes_when_its_minute_has_come_near(rt: HostRuntime) -> Result<(), Fail> {
    let alloc = rt.alloc();
    let command = b"2024-04-11 22:55,next,1".as_slice();
    let line = guarded(alloc, &[command, command], &[NOW, b"2024-04-11 22:45"])?;
    assert!(rt; gives(alloc, line, &[command], 1, ANSWER)?);
    Ok(())
}

#[test]
fn without_a_clock_every_line_passes(rt: HostRuntime) -> Result<(), Fail> {
    let alloc = rt.alloc();
    let command = b"2099-12-31 23:59,next,1".as_slice();
    let line = guarded(alloc, &[command, command], &[])?;
    assert!(rt; gives(alloc, line, &[command, command], 0, ANSWER)?);
    Ok(())
}

#[test]
fn what_is_ahead_leaves_no_entry(rt: HostRuntime) -> Result<(), Fail> {
    let alloc = rt.alloc();
    let mut source = MemorySource::new(DAY.to_vec(alloc)?, 100, Vec::new(alloc));
    let mut sink = MemorySink::new(alloc, 1_000, 1_000, Vec::new(alloc))?;
    let device = MemoryDevice::new(alloc, 20_000, 9, Vec::new(alloc))?;
    let Ok(opened) = open_desk(alloc, &mut source, device, b"", 1, &mut sink) else {
        panic!(rt; "not opened")
    };
    let said = [
        b"2024-03-04 00:12,at,P1,1".as_slice(),
        b"2024-03-11 00:05,at,P1,2",
        b"2024-03-11 00:05,crew,1,2",
        b"2024-03-11 00:05,at,P1,2",
        b"end",
        b"2024-03-11 00:06,at,P1,3",
    ];
    let begin = b"2024-03-04 00:02".as_slice();
    let later = b"2024-03-11 00:00".as_slice();
    let line = guarded(alloc, &said, &[begin, begin, begin, later, later, later])?;
    let mut lines: Vec<Box<dyn CallerLine + Send>> = Vec::new(alloc);
    lines.push(Box::new(alloc, UntilEnd::new(line))?)?;
    let kept = serve_kept(&rt, alloc, opened, &mut lines)?;
    let (_book, device) = kept.into_parts();
    assert_eq!(rt; device.left(0), JOURNAL);
    Ok(())
}

#[test]
fn offsets_are_read(rt: HostRuntime) -> Result<(), Fail> {
    for (text, offset) in [
        (b"+0000".as_slice(), Some(Offset::Ahead(0))),
        (b"-0600", Some(Offset::Behind(360))),
        (b"+0530", Some(Offset::Ahead(330))),
        (b"-2359", Some(Offset::Behind(1_439))),
        (b"+2400", None),
        (b"+0060", None),
        (b"0600", None),
        (b"+600", None),
        (b"+06:00", None),
    ] {
        assert!(rt; Offset::read(text) == offset);
    }
    Ok(())
}
