//! All lines served at one desk.
ghost use Rattle.std.specs.Prelude.{◌≡◌, ◌+◌, ◌*◌, ◌<◌, ◌≤◌, ℕ, length, vec_len, IfOk, IsErr, IsSomeAnd, slice_index_or};
ghost use Rattle.std.specs.List.{All};
ghost use Rattle.turn_gate.specs.Seats.{IsSeatOf};
ghost use Rattle.desk_model.specs.histories.Legal.{IsLegal};
ghost use Rattle.serve_desk.specs.Told.{line_of, lines_of};
ghost use Rattle.serve_desk.specs.AllLines.{AreServed};
ghost use Rattle.serve_desk.specs.Attends.{Attends};

use crate::CALLS_PER_LINE;
use crate::one_line::session;
use crate::post::{Post, leave_posts, seat_lines};
use call_history::Book;
use caller_lines::CallerLine;
use desk_base::NoMemory;
use desk_model::{Booked, DeskCore, LAST_CALLER};
use desk_shared::Desk;
use std::alloc::Global;
use std::sync::Wait;
use std::thread::{self, Threads};
use turn_gate::Seat;

/// Serves 1 to 63 lines at one desk over the book, all at the same time, line i as caller i, from 1, with 5,000 calls of each, for
/// all of which the book has room. It answers the book when all sessions have ended. `NoMemory` comes before the first line is asked.
pub fn serve_lines<C: DeskCore + Send, R: Threads + Wait + Sync>(
    rt: &R,
    alloc: Global,
    book: Book<C>,
    lines: &mut Vec<Box<dyn CallerLine + Send>>,
) -> Result<Book<C>, NoMemory>
    requires some { 1 ≤ vec_len lines.old }
    requires most { vec_len lines.old ≤ LAST_CALLER }
    requires room { length (⟦<Book<C> as Booked>⟧.history book).entries + vec_len lines.old * CALLS_PER_LINE
        ≤ ⟦<Book<C> as Booked>⟧.room book }
    ensures opening { IfOk result (λ after. (⟦<Book<C> as Booked>⟧.history after).opening
        ≡ (⟦<Book<C> as Booked>⟧.history book).opening) }
    ensures room { IfOk result (λ after. ⟦<Book<C> as Booked>⟧.room after ≡ ⟦<Book<C> as Booked>⟧.room book) }
    ensures legal { IfOk result (λ after. IsLegal (⟦<Book<C> as Booked>⟧.history after)) }
    ensures served { IfOk result (λ after. AreServed CALLS_PER_LINE
        (⟦<Book<C> as Booked>⟧.history book).entries (⟦<Book<C> as Booked>⟧.history after).entries
        (lines_of ⟦<(dyn CallerLine + Send) as CallerLine>⟧ lines.old.items)
        (lines_of ⟦<(dyn CallerLine + Send) as CallerLine>⟧ lines.new.items)) }
    ensures unasked { IsErr result → lines.new ≡ lines.old }
{
    let mut posts = Vec::with_capacity(alloc, lines.len())?;
    let count = lines.len() as u8;
    let (desk, mut seats) = Desk::new(alloc, book, count, CALLS_PER_LINE)?;
    seat_lines(lines, &mut seats, &mut posts);
    attend_all(rt, alloc, &desk, &mut posts);
    leave_posts(&mut posts, lines, &mut seats);
    let Ok(book) = desk.close(seats) else {
        unreachable!()
    };
    book.is_legal();
    Ok(book)
}

// Attends to all posts at the same time.
fn attend_all<C: DeskCore + Send, R: Threads + Wait + Sync>(
    rt: &R,
    alloc: Global,
    desk: &Desk<C>,
    posts: &mut Vec<Post<Seat<Book<C>>, Box<dyn CallerLine + Send>>>,
)
    requires { All (λ post. IsSomeAnd post.seat (IsSeatOf desk.now)) posts.old.items }
    ensures count { vec_len posts.new ≡ vec_len posts.old }
    ensures each { (i : ℕ) (d : _) → i < length posts.old.items
        → let post = slice_index_or posts.old.items i d in
        let after = slice_index_or posts.new.items i d in
        Attends desk.now post.seat after.seat
        (line_of (faults post.line) (calls post.line))
        (line_of (faults after.line) (calls after.line)) }
{
    let work = |_i: usize, post: &mut Post<Seat<Book<C>>, Box<dyn CallerLine + Send>>|
        requires { IsSomeAnd post.now.seat (IsSeatOf desk.now) }
        ensures { Attends desk.entry.now post.entry.now.seat post.exit.now.seat
            (line_of (faults post.entry.now.line) (calls post.entry.now.line))
            (line_of (faults post.exit.now.line) (calls post.exit.now.line)) }
    { attend(rt, alloc, desk, post) };
    thread::for_each_mut(rt, posts, usize::from(LAST_CALLER), &work);
}

// Serves the line of a post at its seat.
fn attend<C: DeskCore, R: Wait>(
    rt: &R,
    alloc: Global,
    desk: &Desk<C>,
    post: &mut Post<Seat<Book<C>>, Box<dyn CallerLine + Send>>,
)
    requires { IsSomeAnd post.old.seat (IsSeatOf desk.now) }
    ensures { Attends desk.now post.old.seat post.new.seat
        (line_of (faults post.old.line) (calls post.old.line))
        (line_of (faults post.new.line) (calls post.new.line)) }
{
    let Some(seat) = post.seat.take() else {
        unreachable!()
    };
    let ended = session(rt, alloc, desk, seat, &mut post.line);
    post.seat = Some(ended.seat);
}
