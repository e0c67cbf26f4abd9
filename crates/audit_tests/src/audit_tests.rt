//! What an audit finds in one journal, in that journal cut anywhere, and in others that are wrong.
use audit_desk::{JOURNAL_BYTES, Outcome, Verdict, audit, resume, write_verdict};
use desk_base::{Code, Minute, PersonNo, VacNo};
use desk_model::{Cmd, DeskCore, Reply, Stated};
use std::alloc::Global;
use std::test::Fail;

// The first offer of a desk with one person on one board: an opening and five entries.
const JOURNAL: &[u8] = b"\
2024-03-04 00:00,open,2024-03,1,15
0|2024-03-04 00:01,enrol,101,E,HOM,-|2024-03-04 00:01|done
0|2024-03-04 00:01,board,P1,pool,HOM|2024-03-04 00:01|done
0|2024-03-04 00:02,list,101,P1|2024-03-04 00:02|done
0|2024-03-04 00:03,vacancy,12,E,-,HOM,2024-03-04 08:00,600,0,P1|2024-03-04 00:03|done
0|2024-03-04 00:04,next,12|2024-03-04 00:04|offered 101 P1 1
";

// How many of the first bytes are line feeds.
fn feeds(count: usize) -> u32 {
    let mut feeds: u32 = 0;
    for byte in JOURNAL.iter().take(count) {
        if *byte == b'\n' {
            feeds = feeds.saturating_add(1);
        }
    }
    feeds
}

// What is found in so many of its first bytes.
fn cut_verdict(count: usize) -> Verdict {
    let lines = feeds(count);
    let whole = count > 0 && JOURNAL.get(count - 1) == Some(&b'\n');
    match (lines, whole) {
        (0, _) => Verdict::NoOpening,
        (_, true) => Verdict::Legal(lines - 1),
        (_, false) => Verdict::Unreadable(lines.saturating_add(1)),
    }
}

#[test]
fn a_journal_that_is_cut(rt: HostRuntime) -> Result<(), Fail> {
    for count in 0..=JOURNAL.len() {
        let front = JOURNAL.get(..count).ok_or("too long")?;
        assert_eq!(rt; audit(rt.alloc(), front), cut_verdict(count));
    }
    assert_eq!(rt; audit(rt.alloc(), JOURNAL), Verdict::Legal(5));
    Ok(())
}

// The last entry's outcome, of an offer to this person.
fn offered(minute: &[u8], person: u32) -> Option<Outcome> {
    Some(Outcome {
        moment: Minute::read(minute)?,
        reply: Reply::Offered {
            person: PersonNo::new(person)?,
            board: Code::read(b"P1")?,
            position: 1,
        },
    })
}

// What a person states who accepts a vacancy.
fn accept(minute: &[u8], vac: u32, person: u32) -> Option<Stated> {
    Stated::new(
        Minute::read(minute)?,
        Cmd::Accept {
            vac: VacNo::new(vac)?,
            person: PersonNo::new(person)?,
        },
    )
}

// The journal with its last line in place of which this stands.
fn with_last(alloc: Global, last: &[u8]) -> Result<Vec<u8>, Fail> {
    let mut journal = Vec::from_slice(alloc, JOURNAL.get(..292).ok_or("too short")?)?;
    journal.extend_from_slice(last)?;
    Ok(journal)
}

// What is found in a journal that isn't too long.
fn verdict_of(alloc: Global, journal: &[u8]) -> Option<Verdict> {
    if journal.len() > JOURNAL_BYTES {
        return None;
    }
    Some(audit(alloc, journal))
}

// What is found where the last line has an offer at this minute to this person.
fn wrong_offer(minute: &[u8], person: u32) -> Option<Verdict> {
    Some(Verdict::Wrong {
        line: 6,
        written: offered(minute, person)?,
        right: offered(b"2024-03-04 00:04", 101)?,
    })
}

#[test]
fn an_entry_that_is_wrong(rt: HostRuntime) -> Result<(), Fail> {
    let wrong: [(&[u8], Option<Verdict>); 3] = [
        (
            b"0|2024-03-04 00:04,next,12|2024-03-04 00:04|offered 102 P1 1\n",
            wrong_offer(b"2024-03-04 00:04", 102),
        ),
        (
            b"0|2024-03-04 00:04,next,12|2024-03-04 00:05|offered 101 P1 1\n",
            wrong_offer(b"2024-03-04 00:05", 101),
        ),
        (
            b"0|2024-03-04 00:04,next,12|2024-03-04 00:04|offered 101 P1  1\n",
            Some(Verdict::Unreadable(6)),
        ),
    ];
    for (last, verdict) in wrong {
        let journal = with_last(rt.alloc(), last)?;
        assert_eq!(rt; verdict_of(rt.alloc(), &journal), verdict);
    }
    Ok(())
}

#[test]
fn a_journal_with_a_byte_that_no_line_has(rt: HostRuntime) -> Result<(), Fail> {
    for place in 0..JOURNAL.len() {
        let mut journal = JOURNAL.to_vec(rt.alloc())?;
        if let Some(byte) = journal.get_mut(place) {
            *byte = b'#';
        }
        let verdict = match feeds(place) {
            0 => Verdict::NoOpening,
            line => Verdict::Unreadable(line.saturating_add(1)),
        };
        assert_eq!(rt; verdict_of(rt.alloc(), &journal), Some(verdict));
    }
    Ok(())
}

#[test]
fn the_lines_that_tell_a_verdict(rt: HostRuntime) -> Result<(), Fail> {
    let wrong = wrong_offer(b"2024-03-04 00:04", 102).ok_or("no verdict")?;
    let none: &[u8] = b"";
    let texts: [(Verdict, &[u8]); 5] = [
        (Verdict::Legal(5), b"legal 5\n"),
        (
            wrong,
            b"wrong 6\nwritten 2024-03-04 00:04|offered 102 P1 1\nright 2024-03-04 00:04|offered 101 P1 1\n",
        ),
        (Verdict::Unreadable(2), b"unreadable 2\n"),
        (Verdict::NoOpening, none),
        (Verdict::NoMemory, none),
    ];
    for (verdict, text) in texts {
        assert_eq!(rt; write_verdict(rt.alloc(), &verdict)?.as_slice(), text);
    }
    Ok(())
}

#[test]
fn a_desk_that_goes_on_behind_a_journal(rt: HostRuntime) -> Result<(), Fail> {
    let Ok(mut resumed) = resume(rt.alloc(), JOURNAL, 1) else {
        return Err(Fail::from("not legal"));
    };
    assert_eq!(rt; resumed.count, 5);
    let stated = accept(b"2024-03-04 00:05", 12, 101).ok_or("no command")?;
    assert!(rt; resumed.core.left() >= 1);
    let entry = resumed.core.step(0, stated);
    assert_eq!(rt; entry.reply(), Reply::Done);
    let verdict = resume(rt.alloc(), JOURNAL.get(..36).ok_or("too short")?, 1).err();
    assert_eq!(rt; verdict, Some(Verdict::Unreadable(2)));
    Ok(())
}
