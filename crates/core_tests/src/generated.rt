//! A generated day, which both cores answer alike, entry by entry.
ghost use Rattle.std.specs.Prelude.{◌≡◌, ◌≤◌, ◌<◌, ◌^◌};
ghost use Rattle.desk_model.specs.histories.History.{opened};
ghost use Rattle.day_gen.specs.Day.{day_opening};

use day_gen::{DayGen, Due, a_generated_day_grows};
use desk_model::{DeskCore, Edition, Entry};
use fast_core::FastCore;
use plain_core::PlainCore;
use std::alloc::Global;
use std::test::Fail;

// The entries of a desk that was opened so and has answered nothing yet, stepped through a generated day; `None` where memory is
// wanting.
fn entries_of<C: DeskCore>(alloc: Global, core: &mut C, day: &mut DayGen) -> Option<Vec<Entry>>
    requires start { C.stands core.old (opened (day_opening day.old.edition)) }
    requires first { day.old.given ≡ 0 }
    requires few { day.old.commands < 2 ^ 32 }
    requires room { day.old.commands ≤ C.room core.old }
{
    a_generated_day_grows();
    let mut entries = Vec::new(alloc);
    let mut due = Due::Nothing;
    while let Some(stated) = day.next(due) {
        let entry = core.answer(0, &stated);
        entries.push(entry.to_entry()).ok()?;
        due = Due::after(&entry);
    }
    Some(entries)
}

// Whether they have the same caller, statement, moment and reply.
fn is_same(one: &Entry, other: &Entry) -> bool {
    one.caller() == other.caller()
        && one.stated() == other.stated()
        && one.moment() == other.moment()
        && one.reply() == other.reply()
}

#[test]
fn two_thousand_commands(rt: HostRuntime) -> Result<(), Fail> {
    let alloc = rt.alloc();
    let mut day = DayGen::new(2_000, 7, Edition::One);
    let mut fast = FastCore::new(alloc, day.opening(), 2_000)?;
    let by_fast = entries_of(alloc, &mut fast, &mut day).ok_or("no memory")?;
    let mut again = DayGen::new(2_000, 7, Edition::One);
    let mut plain = PlainCore::new(alloc, again.opening(), 2_000)?;
    let by_plain = entries_of(alloc, &mut plain, &mut again).ok_or("no memory")?;
    assert_eq!(rt; (by_fast.len(), by_plain.len()), (2_000, 2_000));
    for (one, other) in by_fast.iter().zip(&by_plain) {
        assert!(rt; is_same(one, other));
    }
    Ok(())
}
