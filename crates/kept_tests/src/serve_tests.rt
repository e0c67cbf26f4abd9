//! Callers served at a desk whose device fails.
use caller_lines::{CallerLine, MemoryLine};
use desk_io::{MemorySink, MemorySource};
use desk_model::Booked;
use journal_device::MemoryDevice;
use kept_desk::{open_desk, serve_kept};
use std::alloc::Global;
use std::process::Abort;
use std::sync::Wait;
use std::test::Fail;
use std::thread::Threads;

const DAY: &[u8] = b"2024-03-04 00:00,open,2024-03,1,15\n2024-03-04 00:01,board,P1,pool,HOM\n";

const JOURNAL: &[u8] = b"2024-03-04 00:00,open,2024-03,1,15\n\
    0|2024-03-04 00:01,board,P1,pool,HOM|2024-03-04 00:01|done\n";

// How many commands a caller says.
const COMMANDS: usize = 20;

// How many entries there are when all was answered.
const ALL: usize = 1 + 3 * COMMANDS;

// How many calls of the device the beginning takes: it is taken as it is found, and has two lines and a sync; and an entry.
const BEGINS: usize = 4;

const CALLS: usize = 2;

// The line of a caller who asks again and again who stands at the first place of the board.
fn line(alloc: Global) -> Result<Box<MemoryLine>, Fail> {
    let mut said = Vec::new(alloc);
    for _ in 0..COMMANDS {
        said.push(b"2024-03-04 00:02,at,P1,1".to_vec(alloc)?)?;
    }
    let line = MemoryLine::new(alloc, said, Vec::new(alloc), 4_000)?;
    Ok(Box::new(alloc, line)?)
}

// The puts of a caller's line are the lines of its entries in the journal, in their order, and behind them that the journal had a fault, where
// not all its commands have one.
fn has_kept(line: &Box<dyn CallerLine + Send>, number: u8, journal: &[u8]) -> bool {
    let mut count: u32 = 0;
    for text in journal.split_inclusive(|byte| *byte == b'\n') {
        if text.first() == Some(&b'0'.saturating_add(number)) {
            count = count.saturating_add(1);
            if !line.was_put(count, text) {
                return false;
            }
        }
    }
    if count < COMMANDS as u32 {
        count = count.saturating_add(1);
        if !line.was_put(count, b"journal fault\n") {
            return false;
        }
    }
    line.put_count() == count
}

// Three callers at a desk whose device fails at the call of this number, with several entries kept by one sync or each by its own: how many entries
// are kept; all are exactly where the device had no fault. Their lines have what is kept, and no other.
fn serve_three<R: Threads + Wait + Abort + Sync>(
    rt: &R,
    alloc: Global,
    failing: u64,
    defers: bool,
) -> Result<usize, Fail> {
    let mut source = MemorySource::new(DAY.to_vec(alloc)?, 100, Vec::new(alloc));
    let mut sink = MemorySink::new(alloc, 1_000, 1_000, Vec::new(alloc))?;
    let mut calls = Vec::new(alloc);
    calls.push(failing)?;
    let device = MemoryDevice::new(alloc, 20_000, 9, calls)?;
    let Ok(opened) = open_desk(alloc, &mut source, device, b"", 3, &mut sink) else {
        panic!(rt; "not opened, with a fault at call {failing}")
    };
    let mut lines: Vec<Box<dyn CallerLine + Send>> = Vec::new(alloc);
    lines.push(line(alloc)?)?;
    lines.push(line(alloc)?)?;
    lines.push(line(alloc)?)?;
    let kept = serve_kept(rt, alloc, opened.deferring(defers), &mut lines)?;
    let is_sound = kept.is_sound();
    let (book, device) = kept.into_parts();
    let journal = device.left(0);
    let Some(entries) = journal.strip_prefix(JOURNAL) else {
        panic!(rt; "the day is not kept, with a fault at call {failing}")
    };
    for (index, line) in lines.iter().enumerate() {
        assert!(rt;
            has_kept(line, index as u8 + 1, entries),
            "caller {index}, with a fault at call {failing}"
        );
    }
    let count = journal
        .iter()
        .filter(|byte| **byte == b'\n')
        .count()
        .saturating_sub(1);
    assert_eq!(rt;
        is_sound,
        count == book.count() as usize,
        "with a fault at call {failing}"
    );
    assert_eq!(rt; is_sound, count == ALL, "with a fault at call {failing}");
    Ok(count)
}

#[test]
fn only_what_is_kept_is_put(rt: HostRuntime) -> Result<(), Fail> {
    for failing in [5, 6, 17, 40, 1_000] {
        let count = serve_three(&rt, rt.alloc(), failing, false)?;
        assert_eq!(rt; count, ALL.min(1 + (failing as usize - 1 - BEGINS) / CALLS));
    }
    Ok(())
}

#[test]
fn only_what_one_sync_kept_of_several_is_put(rt: HostRuntime) -> Result<(), Fail> {
    for failing in [5, 6, 7, 17, 30, 40, 1_000] {
        let count = serve_three(&rt, rt.alloc(), failing, true)?;
        assert_eq!(rt; count == ALL, failing == 1_000);
    }
    Ok(())
}
