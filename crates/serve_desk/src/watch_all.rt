//! All lines served at one desk with looks.
ghost use Rattle.std.specs.Prelude.{true, ◌≡◌, ◌+◌, ◌*◌, ◌<◌, ◌≤◌, ℕ, length, vec_len, None, Some, IfOk, IsErr, IsSome, slice_index_or};
ghost use Rattle.std.specs.List.{All};
ghost use Rattle.desk_model.specs.histories.Legal.{IsLegal};
ghost use Rattle.desk_model.specs.texts.Journal.{journal};
ghost use Rattle.journal_device.specs.Device.{Tells};
ghost use Rattle.serve_desk.specs.AllLines.{AreAllServed};
ghost use Rattle.serve_desk.specs.Told.{line_of, lines_of};
ghost use Rattle.serve_desk.specs.WatchLines.{IsManned, AttendsWatched, watched_with};

use crate::ended_watched::EndedWatched;
use crate::post::{Post, leave_posts, seat_lines};
use crate::watch_line::session_watched;
use board_window::{NewWall, View};
use call_history::Steps;
use caller_lines::CallerLine;
use desk_base::NoMemory;
use desk_model::{Booked, LAST_CALLER};
use desk_shared::{ShownBook, ShownDesk};
use std::alloc::Global;
use std::mem;
use std::sync::Wait;
use std::thread::{self, Threads};
use turn_gate::Seat;

/// Serves 1 to 63 lines at one desk over the book, whose whole journal is kept, with so many calls of each, as `serve_lines` does, and answers
/// their looks beside: each line has a view of the desk's boards on the wall, which has the book's entries. The line of an entry that isn't
/// told as kept is not put: the session is told that the journal had a fault, and ends. So each entry whose line was put is among those that
/// are kept when all sessions have ended, faults or not.
pub fn watch_lines<B: Steps + Drop + Send, R: Threads + Wait + Sync>(
    rt: &R,
    alloc: Global,
    book: B,
    wall: NewWall,
    quota: u32,
    lines: &mut Vec<Box<dyn CallerLine + Send>>,
) -> Result<B, NoMemory>
    requires opening { wall.wall.opening ≡ (B.history book).opening }
    requires entries { wall.entries ≡ (B.history book).entries }
    requires some { 1 ≤ vec_len lines.old }
    requires most { vec_len lines.old ≤ LAST_CALLER }
    requires calls { 1 ≤ quota }
    requires room { length (B.history book).entries + vec_len lines.old * quota
        ≤ B.room book }
    requires kept { Tells (B.kept book) (journal (B.history book)) }
    ensures opening { IfOk result (λ after. (B.history after).opening
        ≡ (B.history book).opening) }
    ensures room { IfOk result (λ after. B.room after ≡ B.room book) }
    ensures legal { IfOk result (λ after. IsLegal (B.history after)) }
    ensures watched { IfOk result (λ after. AreAllServed
        (watched_with B.always (B.kept after) quota (B.history book).opening (length (B.history book).entries)
        (B.history after).entries)
        (B.history book).entries (B.history after).entries
        (lines_of ⟦<(dyn CallerLine + Send) as CallerLine>⟧ lines.old.items)
        (lines_of ⟦<(dyn CallerLine + Send) as CallerLine>⟧ lines.new.items)) }
    ensures unasked { IsErr result → lines.new ≡ lines.old }
{
    let mut viewed = Vec::with_capacity(alloc, lines.len())?;
    let mut posts = Vec::with_capacity(alloc, lines.len())?;
    let count = lines.len() as u8;
    let (desk, mut seats, mut views) = match ShownDesk::new(rt, alloc, book, wall, count, quota) {
        Ok(made) => made,
        Err(NoMemory) => {
            posts.destroy_empty();
            return Err(NoMemory);
        }
    };
    seat_lines(lines, &mut views, &mut viewed);
    seat_lines(&mut viewed, &mut seats, &mut posts);
    attend_all(rt, alloc, &desk, &mut posts);
    leave_posts(&mut posts, &mut viewed, &mut seats);
    leave_posts(&mut viewed, lines, &mut views);
    posts.destroy_empty();
    match desk.close(rt, seats) {
        Ok(book) => {
            book.is_legal();
            Ok(book)
        }
        Err(_missing) => unreachable!(),
    }
}

// Attends to all posts at the same time.
fn attend_all<B: Steps + Drop + Send, R: Threads + Wait + Sync>(
    rt: &R,
    alloc: Global,
    desk: &ShownDesk<B>,
    posts: &mut Vec<Post<Seat<ShownBook<B>>, Post<View, Box<dyn CallerLine + Send>>>>,
)
    requires { All (λ post. IsManned desk.now post.seat post.line.seat) posts.old.items }
    ensures count { vec_len posts.new ≡ vec_len posts.old }
    ensures each { (i : ℕ) (d : _) → i < length posts.old.items
        → let post = slice_index_or posts.old.items i d in
        let after = slice_index_or posts.new.items i d in
        AttendsWatched B.always desk.now post.seat after.seat post.line.seat after.line.seat
        (line_of (faults post.line.line) (calls post.line.line))
        (line_of (faults after.line.line) (calls after.line.line)) }
{
    let work = |_i: usize, post: &mut Post<
        Seat<ShownBook<B>>,
        Post<View, Box<dyn CallerLine + Send>>,
    >|
        requires { IsManned desk.now post.now.seat post.now.line.seat }
        ensures { AttendsWatched B.always desk.entry.now post.entry.now.seat post.exit.now.seat
            post.entry.now.line.seat post.exit.now.line.seat
            (line_of (faults post.entry.now.line.line) (calls post.entry.now.line.line))
            (line_of (faults post.exit.now.line.line) (calls post.exit.now.line.line)) }
    { attend(rt, alloc, desk, post) };
    thread::for_each_mut(rt, posts, usize::from(LAST_CALLER), &work);
}

// Serves the line of a post at its seat, with its view.
fn attend<B: Steps + Drop, R: Wait>(
    rt: &R,
    alloc: Global,
    desk: &ShownDesk<B>,
    post: &mut Post<Seat<ShownBook<B>>, Post<View, Box<dyn CallerLine + Send>>>,
)
    requires { IsManned desk.now post.old.seat post.old.line.seat }
    ensures { AttendsWatched B.always desk.now post.old.seat post.new.seat post.old.line.seat post.new.line.seat
        (line_of (faults post.old.line.line) (calls post.old.line.line))
        (line_of (faults post.new.line.line) (calls post.new.line.line)) }
{
    let view = post.line.seat.take();
    let seat = post.seat.take();
    match view {
        None => unreachable!(),
        Some(view) => match seat {
            None => unreachable!(),
            Some(seat) => {
                let EndedWatched {
                    seat,
                    why: _,
                    taken: _,
                    view,
                } = session_watched(rt, alloc, desk, seat, view, &mut post.line.line);
                put_back(&mut post.line.seat, view);
                put_back(&mut post.seat, seat);
            }
        },
    }
}

// Puts a seat, or a view, back to its place, which is empty.
fn put_back<S>(place: &mut Option<S>, it: S)
    requires { place.old ≡ None }
    ensures { place.new ≡ Some it }
{
    match mem::replace(place, Some(it)) {
        None => {}
        Some(_other) => unreachable!(),
    }
}
