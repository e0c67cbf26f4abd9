ghost use Rattle.std.specs.Prelude.{◌≡◌, ◌⊎◌, ◌+◌, ◌<◌, ◌≤◌, ◌^◌, [], ◌∷◌, ◌++◌, IfOk, IfSome, IfNone, MatchBool, None, Some, length, drop, vec_len};
ghost use Rattle.std.specs.Bool.{OnTrue};
ghost use Rattle.desk_model.specs.declared.limits.TheConstants.{LAST_CALLER};
ghost use Rattle.std.specs.List.{All};
ghost use mathlib.Core.List.{IsPrefix};
ghost use Rattle.desk_model.specs.histories.History.{history_of};
ghost use Rattle.desk_model.specs.histories.Legal.{IsLegal};
ghost use Rattle.board_window.specs.Shelves.{IsNextChange};
ghost use Rattle.board_window.specs.Walls.{front_of, history_in, longer_by};
ghost use Rattle.board_window.specs.Windows.{IsWaiting, TakesAtMost};

use crate::change::Change;
use crate::copies::{Copies, publish};
use crate::front::Front;
use crate::laws::{the_last_entry_is_next, what_an_entry_makes_of_the_boards};
use crate::new_wall::NewWall;
use crate::note::Note;
use crate::published::{Learn, Tell};
use crate::showing::Showing;
use crate::view::View;
use crate::wall_list::WallList;
use desk_base::NoMemory;
use desk_model::Entry;
use left_right::writer::Writer;
use std::alloc::Global;
use std::marker::Model;
use std::sync::Wait;

/// A wall of windows on a desk's boards. It is given the desk's entries, and shows its views the boards that these make, once they are
/// published. It is not `Drop`: end it by `end`.
pub struct Wall {
    copies: Copies,
    /// The list whose boards are shown once it is published.
    queued: Front,
    list: WallList,
    /// The change of the last entry of the list, where it isn't queued yet.
    waiting: Option<Change>,
}

impl Model for Wall {
    ghost use Rattle.std.specs.Prelude.{◌≡◌, drop, length, take, Some};
    ghost use Rattle.board_window.specs.Shelves.{IsRight, after_all};
    ghost use Rattle.board_window.specs.Windows.{WallValue, IsWaiting};

    ghost Value = { WallValue };

    ghost view = { λ w. record {
      wall = w.list.wall;
      shown = w.copies.desk.shown.value.front.entries;
      queued = w.queued.entries;
      added = w.list.entries;
    } };

    ghost invariant = { λ w. (w.copies.desk.place.me.0.client ≡ Some w.list.wall)
        × (w.copies.desk.shown.value.front.wall ≡ w.list.wall)
        × (w.queued.wall ≡ w.list.wall)
        × (w.queued ≡ (after_all w.copies.desk.shown.value (drop w.copies.behind w.copies.log.items)).front)
        × (IsRight w.copies.desk.shown.value → IsRight (after_all w.copies.desk.shown.value (drop w.copies.behind w.copies.log.items)))
        × (w.copies.desk.shown.value.front.entries ≡ take (length w.copies.desk.shown.value.front.entries) w.queued.entries)
        × IsWaiting w.queued w.list w.waiting };
}

// What the entry behind those that are queued changes: it waits, or is given to the list; `None` where that could not be.
fn next_change(
    queued: &Front,
    list: &mut WallList,
    waiting: Option<Change>,
    entry: &Entry,
) -> Option<Change>
    requires waiting { IsWaiting queued.now list.old waiting }
    requires few { length queued.now.entries + 1 < 2 ^ 32 }
    requires legal { IsLegal (history_in (longer_by queued.now entry.now)) }
    requires same { IsPrefix list.old.entries (queued.now.entries ++ entry.now ∷ []) }
    ensures change { IfSome result (λ change. IsNextChange queued.now change) }
    ensures entry { IfSome result (λ change. change.entry ≡ entry.now) }
    ensures front { IfSome result (λ change. list.new ≡ change.front) }
    ensures none { IfNone result (list.new ≡ queued.now) }
    ensures same { IfNone result (list.new ≡ list.old) }
{
    match waiting {
        Some(change) => Some(change),
        None => list.give(entry),
    }
}

impl Wall {
    /// The same wall with 1 to 63 views, to which it shows its entries; `NoMemory` where there is none for them.
    pub fn new<R: Wait>(
        rt: &R,
        alloc: Global,
        start: NewWall,
        views: u8,
    ) -> Result<(Wall, Vec<View>), NoMemory>
        requires some { 1 ≤ views }
        requires most { views ≤ LAST_CALLER }
        ensures wall { IfOk result (λ made. made.0.wall ≡ start.wall) }
        ensures shown { IfOk result (λ made. made.0.shown ≡ start.entries) }
        ensures queued { IfOk result (λ made. made.0.queued ≡ start.entries) }
        ensures added { IfOk result (λ made. made.0.added ≡ start.entries) }
        ensures count { IfOk result (λ made. vec_len made.1 ≡ views) }
        ensures each { IfOk result (λ made. All (λ view. view ≡ start) made.1.items) }
    {
        let NewWall {
            list,
            first,
            second,
        } = start;
        let mut copies = match Writer::new(alloc, first, second, usize::from(views)) {
            Ok(copies) => copies,
            Err(_) => return Err(NoMemory),
        };
        publish(&mut copies, rt);
        let mut wall = Wall {
            copies,
            queued: list.front().again(),
            list,
            waiting: None,
        };
        match wall.views(alloc, views) {
            Ok(views) => Ok((wall, views)),
            Err(NoMemory) => {
                wall.end(rt);
                Err(NoMemory)
            }
        }
    }

    // A view of what is shown.
    fn view(&mut self) -> Result<View, NoMemory>
        ensures same { self.new ≡ self.old }
        ensures view { IfOk result (λ view. view ≡ front_of self.old.wall self.old.shown) }
    {
        let mut reader = match self.copies.factory().reader() {
            Ok(reader) => reader,
            Err(_) => return Err(NoMemory),
        };
        let told = self.copies.tell::<Tell>();
        reader.learn::<Learn>(told);
        Ok(View::new(reader, self.copies.published().front.again()))
    }

    // So many views of what is shown.
    fn views(&mut self, alloc: Global, count: u8) -> Result<Vec<View>, NoMemory>
        ensures same { self.new ≡ self.old }
        ensures count { IfOk result (λ views. vec_len views ≡ count) }
        ensures each { IfOk result (λ views. All (λ view. view ≡ front_of self.old.wall self.old.shown) views.items) }
    {
        let mut views = Vec::with_capacity(alloc, usize::from(count))?;
        for _ in 0..count {
            let view = self.view()?;
            views.push_reserved(view);
        }
        Ok(views)
    }

    // How many entries are queued.
    fn count(&self) -> u32
        ensures count { result ≡ length self.now.queued }
        ensures begins { IsPrefix self.now.queued self.now.added }
        ensures most { length self.now.added ≤ length self.now.queued + 1 }
    {
        self.queued.count()
    }

    // Queues the next entry, and says whether it did; else there is no memory for it.
    fn queue_one(&mut self, entry: &Entry) -> bool
        requires few { length self.old.queued + 1 < 2 ^ 32 }
        requires legal { IsLegal (history_of self.old.wall.opening (self.old.queued ++ entry.now ∷ [])) }
        requires added { IsPrefix self.old.added (self.old.queued ++ entry.now ∷ []) }
        ensures wall { self.new.wall ≡ self.old.wall }
        ensures shown { self.new.shown ≡ self.old.shown }
        ensures queued { MatchBool result (self.new.queued ≡ self.old.queued ++ entry.now ∷ []) (self.new.queued ≡ self.old.queued) }
        ensures all { OnTrue result (self.new.added ≡ self.new.queued) }
        ensures added { (self.new.added ≡ self.old.added) ⊎ (self.new.added ≡ self.old.queued ++ entry.now ∷ []) }
    {
        what_an_entry_makes_of_the_boards();
        the_last_entry_is_next();
        let waiting = self.waiting.take();
        let Some(change) = next_change(&self.queued, &mut self.list, waiting, entry) else {
            return false;
        };
        let front = change.front.again();
        match self.copies.append(change) {
            Ok(()) => {
                self.queued = front;
                true
            }
            Err(change) => {
                self.waiting = Some(change);
                false
            }
        }
    }

    // Queues the entry that waits, where one does, and says whether all that were taken are queued.
    fn queue_waiting(&mut self) -> bool
        ensures wall { self.new.wall ≡ self.old.wall }
        ensures shown { self.new.shown ≡ self.old.shown }
        ensures all { OnTrue result (self.new.queued ≡ self.new.added) }
        ensures added { self.new.added ≡ self.old.added }
        ensures more { IsPrefix self.old.queued self.new.queued }
    {
        let Some(change) = &self.waiting else {
            return true;
        };
        let entry = change.entry;
        change.front.count();
        self.queue_one(&entry)
    }

    // Queues what waits, and then the entry behind so many, where that is the next.
    fn queue_next(&mut self, entry: &Entry, place: u32)
        requires few { place + 1 < 2 ^ 32 }
        requires legal { length self.old.added ≡ place
            → IsLegal (history_of self.old.wall.opening (self.old.added ++ entry.now ∷ [])) }
        ensures wall { self.new.wall ≡ self.old.wall }
        ensures shown { self.new.shown ≡ self.old.shown }
        ensures added { TakesAtMost place entry.now self.old.added self.new.added }
        ensures more { IsPrefix self.old.queued self.new.queued }
    {
        if !self.queue_waiting() || self.queued.count() != place {
            return;
        }
        self.queue_one(entry);
    }

    /// Takes a desk's next entry, behind `place` others, fewer than 2^32 - 1. What is shown once it is published is all of them but the last
    /// `behind`; above 0 is a want of memory. Where there is no memory for an entry while another waits, neither it nor a later one is ever
    /// shown. Views learn by the note what is shown then.
    pub fn add(&mut self, entry: &Entry, place: u32) -> Showing
        requires few { place + 1 < 2 ^ 32 }
        requires within { length self.old.added ≤ place }
        requires legal { length self.old.added ≡ place
            → IsLegal (history_of self.old.wall.opening (self.old.added ++ entry.now ∷ [])) }
        ensures wall { self.new.wall ≡ self.old.wall }
        ensures shown { self.new.shown ≡ self.old.shown }
        ensures note { result.note ≡ front_of self.new.wall self.new.queued }
        ensures begins { IsPrefix self.new.queued self.new.added }
        ensures behind { length self.new.queued + result.behind ≡ place + 1 }
        ensures added { TakesAtMost place entry.now self.old.added self.new.added }
        ensures more { IsPrefix self.old.queued self.new.queued }
    {
        self.queue_next(entry, place);
        Showing {
            note: Note {
                front: self.queued.again(),
            },
            behind: place + 1 - self.count(),
        }
    }

    /// Shows the entries that were taken: all, or for want of memory all but the last.
    pub fn publish<R: Wait>(&mut self, rt: &R)
        ensures wall { self.new.wall ≡ self.old.wall }
        ensures shown { self.new.shown ≡ self.old.queued }
        ensures queued { self.new.queued ≡ self.old.queued }
        ensures added { self.new.added ≡ self.old.added }
        ensures begins { IsPrefix self.old.queued self.old.added }
        ensures most { length self.old.added ≤ length self.old.queued + 1 }
        ensures more { IsPrefix self.old.shown self.new.shown }
    {
        self.count();
        publish(&mut self.copies, rt);
    }

    /// Ends the windows: from then on no view sees anything. It waits for views that are just looking.
    pub fn end<R: Wait>(self, rt: &R) {
        let Wall {
            copies,
            queued: _,
            list: _,
            waiting: _,
        } = self;
        copies.take(rt);
    }
}
