//! Desks that begin on a device, or go on behind what is there.
use audit_desk::{Outcome, Verdict};
use desk_io::{MemorySink, MemorySource};
use desk_model::{Booked, Reply};
use journal_device::{Found, MemoryDevice};
use kept_desk::{Opened, Refused, open_desk};
use std::alloc::Global;
use std::test::Fail;

// A day file, and its journal.
const DAY: &[u8] = b"2024-03-04 00:00,open,2024-03,1,15\n2024-03-04 00:01,board,P1,pool,HOM\n";

const JOURNAL: &[u8] = b"2024-03-04 00:00,open,2024-03,1,15\n\
    0|2024-03-04 00:01,board,P1,pool,HOM|2024-03-04 00:01|done\n";

const NEXT: &[u8] = b"2|2024-03-04 00:02,at,P1,1|2024-03-04 00:02|no one 0\n";

// Opens a desk for three callers on a device that has this, and fails at the calls of these numbers.
fn open(
    alloc: Global,
    there: &[u8],
    failing: Vec<u64>,
) -> Result<Result<Opened<MemoryDevice>, Refused<MemoryDevice>>, Fail> {
    if there.len() > 20_000 {
        return Err(Fail::from("too much is there"));
    }
    let mut source = MemorySource::new(DAY.to_vec(alloc)?, 100, Vec::new(alloc));
    let mut sink = MemorySink::new(alloc, 1_000, 1_000, Vec::new(alloc))?;
    let mut device = MemoryDevice::holding(alloc, there, 20_000, 7, failing)?;
    let Ok(text) = device.read_all(alloc, 20_000) else {
        return Err(Fail::from("the device was not read"));
    };
    Ok(open_desk(alloc, &mut source, device, &text, 3, &mut sink))
}

#[test]
fn a_desk_begins_on_an_empty_device(rt: HostRuntime) -> Result<(), Fail> {
    let alloc = rt.alloc();
    let Ok(opened) = open(alloc, b"", Vec::new(alloc))? else {
        panic!(rt; "not opened")
    };
    assert_eq!(rt; opened.quota, 5_000);
    let (book, device) = opened.book.into_parts();
    assert_eq!(rt; book.count(), 1);
    assert_eq!(rt; device.left(0), JOURNAL);
    Ok(())
}

// Behind the journal and each front of one more line the desk goes on, and of the line nothing is left but where it is whole.
#[test]
fn a_desk_goes_on_behind_whole_lines(rt: HostRuntime) -> Result<(), Fail> {
    let alloc = rt.alloc();
    for torn in 0..NEXT.len() + 1 {
        let mut there = JOURNAL.to_vec(alloc)?;
        there.extend_from_slice(&NEXT[..torn])?;
        let Ok(opened) = open(alloc, &there, Vec::new(alloc))? else {
            panic!(rt; "not opened behind {torn} bytes")
        };
        let whole = torn == NEXT.len();
        let (book, device) = opened.book.into_parts();
        assert_eq!(rt; book.count(), 1 + u32::from(whole), "behind {torn} bytes");
        let left = if whole { &there } else { JOURNAL };
        assert_eq!(rt; device.left(0), left, "behind {torn} bytes");
    }
    Ok(())
}

#[test]
fn what_is_no_legal_journal_is_refused(rt: HostRuntime) -> Result<(), Fail> {
    let alloc = rt.alloc();
    let mut wrong = JOURNAL.to_vec(alloc)?;
    wrong.extend_from_slice(b"2|2024-03-04 00:02,at,P1,1|2024-03-04 00:02|no one 1\n")?;
    let refused = open(alloc, &wrong, Vec::new(alloc))?;
    assert!(rt;
        matches!(
            &refused,
            Err(Refused::Found(Verdict::Wrong {
                line: 3,
                right: Outcome {
                    reply: Reply::NoOne { .. },
                    ..
                },
                ..
            }))
        )
    );
    for there in [
        b"open\n".as_slice(),
        b"2024-03-04 00:00,open,2024-03,1,15".as_slice(),
    ] {
        let refused = open(alloc, there, Vec::new(alloc))?;
        assert!(rt; matches!(&refused, Err(Refused::Found(Verdict::NoOpening))));
    }
    Ok(())
}

// A device that fails while a desk begins on it, or goes on, gives the fault; in between nothing is told.
#[test]
fn a_fault_of_the_device_opens_no_desk(rt: HostRuntime) -> Result<(), Fail> {
    let alloc = rt.alloc();
    for (there, calls) in [(b"".as_slice(), 4), (JOURNAL, 1)] {
        for failing in 1..calls + 1 {
            let mut calls = Vec::new(alloc);
            calls.push(failing)?;
            let refused = open(alloc, there, calls)?;
            assert!(rt;
                matches!(&refused, Err(Refused::Fault(_))),
                "at call {failing}"
            );
        }
    }
    Ok(())
}
