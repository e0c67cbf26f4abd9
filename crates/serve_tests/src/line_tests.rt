//! Lines in memory that are served at one desk at the same time.
use crate::openings::{LOOK, has_puts, lines_of, new_book};
use call_history::Book;
use caller_lines::CallerLine;
use desk_model::Booked;
use plain_core::PlainCore;
use serve_desk::{CALLS_PER_LINE, serve_lines};
use std::alloc::{AllocError, Global};
use std::sync::Wait;
use std::test::Fail;
use std::thread::Threads;

// Serves 1 to 63 lines at a new desk.
fn serve_new<R: Threads + Wait + Sync>(
    rt: &R,
    alloc: Global,
    lines: &mut Vec<Box<dyn CallerLine + Send>>,
) -> Option<Book<PlainCore>> {
    if lines.is_empty() || lines.len() > 63 {
        return None;
    }
    let book = new_book(alloc, CALLS_PER_LINE * lines.len() as u32)?;
    serve_lines(rt, alloc, book, lines).ok()
}

// The line of the entry that a look of this caller makes.
fn reply_to(alloc: Global, caller: usize) -> Result<String, AllocError> {
    format!(in alloc; "{caller}|2024-03-04 00:01,at,P1,1|2024-03-04 00:01|unknown board P1\n")
}

// How many entries the book has of this caller.
fn count_of(book: &Book<PlainCore>, caller: u8) -> usize {
    book.entries()
        .iter()
        .filter(|entry| entry.caller() == caller)
        .count()
}

#[test]
fn two_lines_at_one_desk(rt: HostRuntime) -> Result<(), Fail> {
    let alloc = rt.alloc();
    let given: [(&[&[u8]], u64); 2] = [(&[LOOK, LOOK], 0), (&[LOOK, b"", LOOK, LOOK], 0)];
    let mut lines = lines_of(alloc, &given, 1_000).ok_or("memory")?;
    let book = serve_new(&rt, alloc, &mut lines).ok_or("no memory")?;
    assert_eq!(rt;
        (book.count(), count_of(&book, 1), count_of(&book, 2)),
        (5, 2, 3)
    );
    let [one, two] = lines.as_slice() else {
        panic!(rt; "there are two lines")
    };
    let first = reply_to(alloc, 1)?;
    let second = reply_to(alloc, 2)?;
    assert!(rt; has_puts(one, &[first.as_bytes(), first.as_bytes()]));
    assert!(rt;
        has_puts(
            two,
            &[
                second.as_bytes(),
                b"malformed 0\n",
                second.as_bytes(),
                second.as_bytes()
            ]
        )
    );
    Ok(())
}

#[test]
fn as_many_lines_as_there_are_seats(rt: HostRuntime) -> Result<(), Fail> {
    let alloc = rt.alloc();
    let looks = [LOOK; 100];
    let mut lines = lines_of(alloc, &[(looks.as_slice(), 0); 63], 10_000).ok_or("memory")?;
    let book = serve_new(&rt, alloc, &mut lines).ok_or("no memory")?;
    assert_eq!(rt; book.count(), 6_300);
    for (at, line) in lines.iter().enumerate() {
        let reply = reply_to(alloc, at + 1)?;
        assert_eq!(rt; line.put_count(), 100);
        for number in 1..101 {
            assert!(rt; line.was_put(number, reply.as_bytes()));
        }
    }
    Ok(())
}
