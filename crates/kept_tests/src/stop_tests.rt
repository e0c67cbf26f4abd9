//! A run that stops while callers call: what is found then.
ghost use Rattle.std.specs.Prelude.{◌≤◌};

use call_history::{Book, Steps};
use desk_base::{Code, Minute, Month, Window};
use desk_model::{Cmd, Edition, Entry, Opening, Stated};
use fast_core::FastCore;
use journal_device::{Device, MemoryDevice};
use kept_book::KeptBook;
use line_writer::{write_entry, write_opening};
use std::alloc::Global;
use std::test::Fail;

// How many commands three callers state by turns.
const COMMANDS: u16 = 200;

// How many calls of the device the opening takes, and an entry.
const CALLS: u64 = 2;

fn opening() -> Option<Opening> {
    let window = Window::new(Month::read(b"2024-03")?, 1)?;
    let start = Minute::read(b"2024-03-04 00:00")?;
    Opening::new(start, window, 15, Edition::One)
}

// The command of this number: the board P1 is set up, and then it is asked who stands at a position of it.
fn command(number: u16) -> Option<Stated> {
    let board = Code::read(b"P1")?;
    let place = Code::read(b"HOM")?;
    let cmd = match number {
        0 => Cmd::Board {
            board,
            extra: false,
            place,
        },
        _ => Cmd::At {
            board,
            place: number % 1_000 + 1,
        },
    };
    Stated::new(Minute::read(b"2024-03-04 00:01")?, cmd)
}

type Plain = Book<FastCore>;

// The book of a new desk, whose opening is kept on a device that fails at the call of this number behind that, where it is one, and of an append
// that fails takes so many bytes.
fn open(alloc: Global, failing: u64, torn: usize) -> Result<KeptBook<Plain, MemoryDevice>, Fail> {
    let opening = opening().ok_or("no opening")?;
    let mut calls = Vec::new(alloc);
    calls.push(failing.saturating_add(CALLS))?;
    let mut device = MemoryDevice::new(alloc, 20_000, torn, calls)?;
    let line = write_opening(&opening);
    if !device.append(line.as_slice()) {
        return Err(Fail::from("the opening was not appended"));
    }
    if !device.sync() {
        return Err(Fail::from("the opening was not synced"));
    }
    let core = FastCore::new(alloc, opening, u64::from(COMMANDS))?;
    let book = Book::new(alloc, core)?;
    Ok(KeptBook::new(book, device))
}

// Has all commands answered, with one sync for so many, and tells how many of the first entries were told as kept; none behind them is.
fn answer_all(kept: &mut KeptBook<Plain, MemoryDevice>, at_once: u16) -> Result<u16, Fail>
    requires { 1 ≤ at_once }
{
    let mut count = 0;
    for number in 0..COMMANDS {
        let stated = command(number).ok_or("no command")?;
        let caller = (number % 3) as u8 + 1;
        let Ok(_entry) = kept.step(caller, stated) else {
            return Err(Fail::from("there was room"));
        };
        if (number + 1) % at_once > 0 || !kept.keep() {
            continue;
        }
        if at_once.saturating_add(count) < number + 1 {
            return Err(Fail::from("an entry was kept behind one that was not"));
        }
        count = number + 1;
    }
    Ok(count)
}

// The journal of these entries.
fn journal_of(alloc: Global, entries: &[Entry]) -> Result<Vec<u8>, Fail> {
    let opening = opening().ok_or("no opening")?;
    let mut text = Vec::new(alloc);
    text.extend_from_slice(write_opening(&opening).as_slice())?;
    for entry in entries {
        text.extend_from_slice(write_entry(entry).as_slice())?;
    }
    Ok(text)
}

#[test]
fn two_hundred_entries_and_their_journal(rt: HostRuntime) -> Result<(), Fail> {
    let alloc = rt.alloc();
    let mut kept = open(alloc, 1_000, 0)?;
    assert_eq!(rt; answer_all(&mut kept, 1)?, COMMANDS);
    assert!(rt; kept.is_sound());
    let (book, device) = kept.into_parts();
    assert_eq!(rt; book.entries().len(), 200);
    let told = b"2024-03-04 00:00,open,2024-03,1,15\n\
        1|2024-03-04 00:01,board,P1,pool,HOM|2024-03-04 00:01|done\n\
        2|2024-03-04 00:01,at,P1,2|2024-03-04 00:01|no one 0\n";
    assert!(rt; device.left(0).strip_prefix(told.as_slice()).is_some());
    assert_eq!(rt;
        device.left(0),
        journal_of(alloc, book.entries())?.as_slice()
    );
    Ok(())
}

// At each of the device's calls that fails, and with each byte that is there of what was not synced: what is found begins with the journal of
// all entries that were told as kept, and goes on with a front of the next one's line at most.
#[test]
fn what_was_told_as_kept_is_found_at_every_stop(rt: HostRuntime) -> Result<(), Fail> {
    let alloc = rt.alloc();
    for failing in 1..u64::from(COMMANDS) * CALLS + 1 {
        let mut kept = open(alloc, failing, failing as usize % 80)?;
        let count = usize::from(answer_all(&mut kept, 1)?);
        assert_eq!(rt; count as u64, (failing - 1) / CALLS, "at call {failing}");
        assert!(rt; !kept.is_sound(), "at call {failing}");
        let (book, device) = kept.into_parts();
        let entries = book.entries();
        assert!(rt; count < entries.len(), "at call {failing}");
        let told = journal_of(alloc, &entries[..count])?;
        let next = write_entry(&entries[count]);
        assert_eq!(rt; device.left(0), told.as_slice(), "at call {failing}");
        for unsynced in 0..100 {
            let Some((_, more)) = device.left(unsynced).split_at_checked(told.len()) else {
                panic!(rt; "less is left than was kept, at call {failing}")
            };
            assert!(rt;
                next.as_slice().strip_prefix(more).is_some(),
                "at call {failing}, with {unsynced} more"
            );
        }
    }
    Ok(())
}

// The same with one sync for five entries: what is found begins with the journal of all that were told as kept, and goes on with a front of that of
// the others.
#[test]
fn what_one_sync_keeps_of_five_entries_is_found_at_every_stop(rt: HostRuntime) -> Result<(), Fail> {
    let alloc = rt.alloc();
    let calls = u64::from(COMMANDS) / 5 * 6;
    for failing in 1..calls + 1 {
        let mut kept = open(alloc, failing, failing as usize % 80)?;
        let count = usize::from(answer_all(&mut kept, 5)?);
        assert_eq!(rt; count as u64, (failing - 1) / 6 * 5, "at call {failing}");
        assert!(rt; !kept.is_sound(), "at call {failing}");
        let (book, device) = kept.into_parts();
        let entries = book.entries();
        assert!(rt; count < entries.len(), "at call {failing}");
        let told = journal_of(alloc, &entries[..count])?;
        let whole = journal_of(alloc, entries)?;
        assert_eq!(rt; device.left(0), told.as_slice(), "at call {failing}");
        for unsynced in 0..60 {
            let left = device.left(unsynced * 7);
            assert!(rt; left.starts_with(&told), "at call {failing}");
            assert!(rt; whole.starts_with(left), "at call {failing}");
        }
    }
    Ok(())
}
