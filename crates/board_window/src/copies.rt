//! The writer of a shelf's two copies.
ghost use Rattle.std.specs.Prelude.{◌≡◌, [], drop, Some};
ghost use Rattle.left_right.specs.Sides.{view};
ghost use Rattle.board_window.specs.Shelves.{IsRight, after_all};

use crate::change::Change;
use crate::published::{Publish, Published};
use crate::shelf::Shelf;
use crate::wall_name::WallName;
use core::mem::replace_with;
use left_right::writer::Writer;
use std::sync::Wait;

/// The writer, under the rule of what is published.
pub(crate) type Copies = Writer<Shelf, Change, Option<WallName>, Published>;

// The copies, with what is pending published.
fn published<R: Wait>(copies: Copies, rt: &R) -> Copies
    requires right { IsRight copies.desk.shown.value
        → IsRight (after_all copies.desk.shown.value (drop copies.behind copies.log.items)) }
    requires wall { (after_all copies.desk.shown.value (drop copies.behind copies.log.items)).front.wall
        ≡ copies.desk.shown.value.front.wall }
    ensures shown { result.desk.shown.value
        ≡ after_all copies.desk.shown.value (drop copies.behind copies.log.items) }
    ensures pending { drop result.behind result.log.items ≡ [] }
    ensures known { view result.desk.place ≡ Some result.desk.shown.value.front.wall }
{
    let (copies, published) = copies.publish_as::<Publish, R>(rt);
    let Ok(()) = published else { unreachable!() };
    copies
}

/// Publishes what is pending, where the shelf is right by it. It waits for those who still read the copy from before the last time.
pub(crate) fn publish<R: Wait>(copies: &mut Copies, rt: &R)
    requires right { IsRight copies.old.desk.shown.value
        → IsRight (after_all copies.old.desk.shown.value (drop copies.old.behind copies.old.log.items)) }
    requires wall { (after_all copies.old.desk.shown.value (drop copies.old.behind copies.old.log.items)).front.wall
        ≡ copies.old.desk.shown.value.front.wall }
    ensures shown { copies.new.desk.shown.value
        ≡ after_all copies.old.desk.shown.value (drop copies.old.behind copies.old.log.items) }
    ensures pending { drop copies.new.behind copies.new.log.items ≡ [] }
    ensures known { view copies.new.desk.place ≡ Some copies.new.desk.shown.value.front.wall }
{
    replace_with(copies, rt, |copies, rt| (published(copies, rt), ()));
}
