//! Trees of slots against lists of slots that are read from the first on.
ghost use Rattle.std.specs.Prelude.{◌≡◌, ◌<◌};

use crate::given::{Draws, minute, person};
use desk_base::Minute;
use slot_tree::{Slot, SlotTree, Steps};
use std::alloc::Global;
use std::marker::Brand;
use std::sync::ledger::{Blank, Ledger};
use std::test::Fail;

// The first slot that is ready, with a count of steps of its own.
fn first_of<L: Ledger>(blank: Blank, tree: &SlotTree, from: u32, m: Minute) -> Option<u32>
    requires name { blank.name ≡ L.name }
    requires parts { blank.parts ≡ L.parts }
    requires some { 0 < blank.parts }
{
    let mut steps = Steps::<L>::new(blank);
    tree.first_from(from, m, &mut steps)
}

fn first(tree: &SlotTree, from: u32, m: Minute) -> Option<u32> {
    first_of::<Brand>(Blank::new(1), tree, from, m)
}

fn append(tree: &mut SlotTree, number: u32, ready: u64) -> Result<u32, Fail> {
    if tree.free() == 0 {
        return Err("no slot is free".into());
    }
    Ok(tree.append(person(number)?, minute(ready)?))
}

fn clear(tree: &mut SlotTree, slot: u32) -> Result<(), Fail> {
    if tree.at(slot).is_none() {
        return Err("the slot is empty".into());
    }
    tree.clear(slot);
    Ok(())
}

fn set(tree: &mut SlotTree, slot: u32, ready: u64) -> Result<(), Fail> {
    if tree.at(slot).is_none() {
        return Err("the slot is empty".into());
    }
    tree.set(slot, minute(ready)?);
    Ok(())
}

fn tree(alloc: Global, k: u32) -> Result<SlotTree, Fail> {
    if k > 10 {
        return Err("too high".into());
    }
    Ok(SlotTree::new(alloc, k)?)
}

// The person of a slot and the ready minute.
fn at(tree: &SlotTree, slot: u32) -> Option<(u32, u64)> {
    let held = tree.at(slot)?;
    Some((held.person.number(), held.ready.number()))
}

// A tree of four slots, of which three are filled.
fn three_of_four(alloc: Global) -> Result<SlotTree, Fail> {
    let mut slots = tree(alloc, 2)?;
    for (number, ready) in [(7, 300), (8, 100), (9, 200)] {
        append(&mut slots, number, ready)?;
    }
    Ok(slots)
}

#[test]
fn the_first_in_order_and_not_the_longest_rested(rt: HostRuntime) -> Result<(), Fail> {
    let slots = three_of_four(rt.alloc())?;
    let asked = [
        (0, 300, Some(0)),
        (0, 299, Some(1)),
        (0, 99, None),
        (1, 300, Some(1)),
        (2, 199, None),
        (2, 200, Some(2)),
        (3, 300, None),
        (4, 300, None),
    ];
    for (from, m, expected) in asked {
        assert!(rt; first(&slots, from, minute(m)?) == expected);
    }
    Ok(())
}

#[test]
fn what_is_empty_moves_behind(rt: HostRuntime) -> Result<(), Fail> {
    let mut slots = three_of_four(rt.alloc())?;
    clear(&mut slots, 0)?;
    assert!(rt;
        (slots.free(), slots.nth(0), slots.nth(2), slots.nth(3)) == (1, None, Some(2), None)
    );
    slots.compact();
    assert!(rt;
        (at(&slots, 0), at(&slots, 1), at(&slots, 2)) == (Some((8, 100)), Some((9, 200)), None)
    );
    clear(&mut slots, 1)?;
    assert!(rt; slots.free() == 3);
    Ok(())
}

// The first slot that is ready, read slot by slot.
fn scanned(tree: &SlotTree, many: u32, from: u32, m: u64) -> Option<u32> {
    for slot in from..many {
        if let Some(held) = tree.at(slot) {
            if held.ready.number() <= m {
                return Some(slot);
            }
        }
    }
    None
}

// Fills a slot with someone, and the same at the list's end.
fn put_in(tree: &mut SlotTree, list: &mut Vec<(u32, u64)>, draws: &mut Draws) -> Result<(), Fail> {
    if tree.free() == 0 {
        tree.compact();
    }
    if tree.free() > 0 {
        let number = 1 + draws.below(1_000);
        let ready = u64::from(draws.below(1_000));
        append(tree, number, ready)?;
        list.push((number, ready))?;
    }
    Ok(())
}

// Empties a slot or changes it, and the list at the same index.
fn change(
    tree: &mut SlotTree,
    list: &mut Vec<(u32, u64)>,
    index: usize,
    draws: &mut Draws,
) -> Result<(), Fail> {
    let Some(kept) = list.get_mut(index) else {
        return Ok(());
    };
    let slot = u32::try_from(index).unwrap_or(0).saturating_add(1);
    let slot = tree.nth(slot).ok_or("no such slot")?;
    let ready = u64::from(draws.below(1_000));
    if ready < 500 {
        set(tree, slot, ready)?;
        kept.1 = ready;
    } else {
        clear(tree, slot)?;
        list.remove(index);
    }
    Ok(())
}

#[test]
fn searches_as_a_scan(rt: HostRuntime) -> Result<(), Fail> {
    let mut slots = tree(rt.alloc(), 5)?;
    let mut list = Vec::new(rt.alloc());
    let mut draws = Draws { state: 5 };
    for _ in 0..1_000 {
        put_in(&mut slots, &mut list, &mut draws)?;
        put_in(&mut slots, &mut list, &mut draws)?;
        let index = draws.below(40) as usize;
        change(&mut slots, &mut list, index, &mut draws)?;
        stands_for(&slots, &list)?;
        let from = draws.below(33);
        let m = u64::from(draws.below(1_000));
        assert!(rt; first(&slots, from, minute(m)?) == scanned(&slots, 32, from, m));
    }
    Ok(())
}

// The filled slots are those of the list, in its order.
fn stands_for(slots: &SlotTree, list: &[(u32, u64)]) -> Result<(), Fail> {
    for (index, held) in list.iter().enumerate() {
        let number = u32::try_from(index).unwrap_or(0);
        let slot = slots.nth(number.saturating_add(1)).ok_or("no such slot")?;
        if at(slots, slot) != Some(*held) || slots.before(slot) != number {
            return Err("another slot".into());
        }
    }
    Ok(())
}

#[test]
fn a_copy_has_the_same_slots(rt: HostRuntime) -> Result<(), Fail> {
    let mut slots = tree(rt.alloc(), 1)?;
    append(&mut slots, 4, 9)?;
    let copy = slots.copy(rt.alloc())?;
    clear(&mut slots, 0)?;
    assert!(rt; at(&copy, 0) == Some((4, 9)));
    assert!(rt; at(&copy, 1).is_none());
    assert!(rt; copy.free() == 1);
    assert!(rt; slots.free() == 2);
    Ok(())
}
