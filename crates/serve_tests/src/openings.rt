//! What the cases begin with.
ghost use Rattle.std.specs.Prelude.{◌≡◌, ◌<◌, ◌^◌, [], IfSome};
ghost use Rattle.desk_model.specs.histories.History.{History};

use call_history::Book;
use caller_lines::{CallerLine, MemoryLine};
use desk_base::{Minute, Month, Window};
use desk_model::{Booked, Edition, Opening};
use plain_core::PlainCore;
use std::alloc::Global;

/// A command of a line: who stands at the first place of the board P1, which there isn't.
pub const LOOK: &[u8] = b"2024-03-04 00:01,at,P1,1";

/// A day file of no commands, which is its journal too.
pub const OPENING: &[u8] = b"2024-03-04 00:00,open,2024-03,1,15\n";

fn opening() -> Option<Opening> {
    let window = Window::new(Month::read(b"2024-03")?, 1)?;
    let start = Minute::read(b"2024-03-04 00:00")?;
    Opening::new(start, window, 15, Edition::One)
}

/// The book of a new desk that has so many steps, fewer than 2^32.
pub fn new_book(alloc: Global, steps: u32) -> Option<Book<PlainCore>>
    ensures empty { IfSome result (λ book. (⟦<Book<PlainCore> as Booked>⟧.history book).entries ≡ []) }
    ensures room { IfSome result (λ book. ⟦<Book<PlainCore> as Booked>⟧.room book ≡ steps) }
{
    let core = PlainCore::new(alloc, opening()?, u64::from(steps)).ok()?;
    Book::new(alloc, core).ok()
}

/// A line in memory that gives these texts, fails at these of its calls, from 1, and has room for so many bytes of puts.
pub fn line_of(
    alloc: Global,
    texts: &[&[u8]],
    failing: &[u64],
    room: usize,
) -> Option<Box<dyn CallerLine + Send>> {
    let mut given = Vec::with_capacity(alloc, texts.len()).ok()?;
    for text in texts {
        given.push(text.to_vec(alloc).ok()?).ok()?;
    }
    let line = MemoryLine::new(alloc, given, failing.to_vec(alloc).ok()?, room).ok()?;
    let boxed: Box<dyn CallerLine + Send> = Box::new(alloc, line).ok()?;
    Some(boxed)
}

/// Lines in memory, each of which gives its texts and fails at its one call, from 1, or at none where that is 0; and has room for so
/// many bytes of puts.
pub fn lines_of(
    alloc: Global,
    each: &[(&[&[u8]], u64)],
    room: usize,
) -> Option<Vec<Box<dyn CallerLine + Send>>> {
    let mut lines = Vec::new(alloc);
    for (texts, failing) in each {
        lines.push(line_of(alloc, texts, &[*failing], room)?).ok()?;
    }
    Some(lines)
}

/// Just these texts were put on the line, in this order.
pub fn has_puts(line: &Box<dyn CallerLine + Send>, texts: &[&[u8]]) -> bool {
    let count = line.put_count();
    for (number, text) in (1..=count).zip(texts) {
        if !line.was_put(number, text) {
            return false;
        }
    }
    count as usize == texts.len()
}
