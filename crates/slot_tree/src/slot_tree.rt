ghost use Rattle.std.specs.Prelude.{◌≡◌, ℕ, ◌+◌, ◌-◌, ◌*◌, ◌^◌, ◌<◌, ◌≤◌, IfOk, IfSome, true, None, Some, [], ◌∷◌, ◌++◌, is_some, length, take, replicate, slice_set, vec_capacity};
ghost use Rattle.slot_tree.specs.Slots.{slot_at, with_ready, filled, filled_end, compacted};
ghost use Rattle.slot_tree.specs.Search.{FindsReady, FindsFilled};
ghost use Rattle.slot_tree.specs.Nodes.{AreLeast, KeysStand};
ghost use Rattle.slot_tree.specs.Words.{TellFilled};
ghost use Rattle.slot_tree.specs.Rest.{all_slots, all_nodes, HasRoom};
ghost use Rattle.slot_tree.specs.declared.limits.TheConstants.{SLOT_LIMIT};

use crate::counted_nodes::CountedNodes;
use crate::filled_slots::FilledSlots;
use crate::nodes::{EMPTY, fill, key_of, mend, write};
use crate::search::first_below;
use crate::slots::{end_before, slot_count};
use crate::{Slot, Steps};
use desk_base::{Minute, NoMemory, PersonNo};
use std::alloc::Global;
use std::marker::Model;
use std::sync::ledger::Ledger;

/// Slots in a row, 2^k of them, each empty or filled by a person and the minute from which the person is ready. Numbers of
/// slots count from 0. A contract sees the list of the slots.
///
/// Slots are filled behind the last filled one, so the filled ones stand in the order in which they were filled. A bit of each tells
/// whether it is filled. Memory for all is taken when they are made, and is not written to before the first is filled, or they are
/// compacted.
#[derive(Drop)]
pub struct SlotTree {
    height: u32,
    next: usize,
    slots: Vec<Option<Slot>>,
    nodes: Vec<u32>,
    filled: FilledSlots,
}

impl Model for SlotTree {
    ghost use Rattle.std.specs.Prelude.{List, Option};
    ghost use Rattle.slot_tree.specs.declared.slot.Slot.{Slot};

    ghost Value = { List (Option Slot) };

    ghost use Rattle.std.specs.Prelude.{vec_capacity};
    ghost use Rattle.slot_tree.specs.Rest.{all_slots, IsKept};

    ghost view = { λ t. all_slots t.height t.slots.items };

    ghost invariant = { λ t. IsKept t.height t.next t.slots.items (vec_capacity t.slots)
        t.nodes.items (vec_capacity t.nodes) t.filled.words };
}

impl SlotTree {
    /// 2^k empty slots, k at most 10; `NoMemory` where there is none for them.
    pub fn new(alloc: Global, k: u32) -> Result<SlotTree, NoMemory>
        requires { k ≤ 10 }
        ensures { IfOk result (λ tree. tree ≡ replicate (2 ^ k) None) }
    {
        let many = slot_count(k);
        Ok(SlotTree {
            height: k,
            next: 0,
            slots: Vec::with_capacity(alloc, many)?,
            nodes: Vec::with_capacity(alloc, 2 * many)?,
            filled: FilledSlots::none(),
        })
    }

    /// Fills the slot behind the last filled one, of which there must be one, and answers its number.
    pub fn append(&mut self, person: PersonNo, ready: Minute) -> u32
        requires { filled_end self.old < length self.old }
        ensures slot { result ≡ filled_end self.old }
        ensures slots { self.new ≡ slice_set self.old result (Some (record { person = person; ready = ready })) }
        ensures order { filled self.new ≡ filled self.old ++ record { person = person; ready = ready } ∷ [] }
    {
        let slot = self.next;
        keep_all(&mut self.slots, &mut self.nodes, self.height);
        put(
            &mut self.slots,
            &mut self.nodes,
            &mut self.filled,
            slot,
            Some(Slot { person, ready }),
        );
        self.next = slot + 1;
        slot as u32
    }

    /// Empties a filled slot.
    pub fn clear(&mut self, slot: u32)
        requires { is_some (slot_at self.old slot) ≡ true }
        ensures { self.new ≡ slice_set self.old slot None }
    {
        keep_all(&mut self.slots, &mut self.nodes, self.height);
        put(
            &mut self.slots,
            &mut self.nodes,
            &mut self.filled,
            slot as usize,
            None,
        );
        self.next = end_before(&self.slots, self.next);
    }

    /// Makes the person of a filled slot ready from another minute on.
    pub fn set(&mut self, slot: u32, ready: Minute)
        requires { is_some (slot_at self.old slot) ≡ true }
        ensures { self.new ≡ slice_set self.old slot (with_ready ready (slot_at self.old slot)) }
    {
        if let Some(held) = self.at(slot) {
            let person = held.person;
            keep_all(&mut self.slots, &mut self.nodes, self.height);
            put(
                &mut self.slots,
                &mut self.nodes,
                &mut self.filled,
                slot as usize,
                Some(Slot { person, ready }),
            );
        }
    }

    /// The first filled slot, from one on, whose person is ready at the minute; `None` exactly where there is none. The
    /// steps are the nodes that it reads.
    pub fn first_from<L: Ledger>(&self, from: u32, m: Minute, steps: &mut Steps<L>) -> Option<u32>
        ensures found { FindsReady self.now from m result }
        ensures cost { (k : ℕ) → length self.now ≡ 2 ^ k → steps.new ≤ steps.old + 4 * (k + 1) }
        ensures close { (k : ℕ) → length self.now ≡ 2 ^ k → steps.new ≤ steps.old + 2 * k + 1 }
        ensures counted { (s : ℕ) → from ≤ s → is_some (slot_at self.now s) ≡ true → steps.old < steps.new }
    {
        let many = slot_count(self.height);
        let from = from as usize;
        if from >= many || self.next == 0 {
            return None;
        }
        let m = m.number() as u32;
        let at = first_below(
            &CountedNodes::new(&self.nodes),
            self.height,
            many + from,
            m,
            steps,
        )?;
        Some((at - many) as u32)
    }

    /// What a slot holds; `None` exactly where it is empty, or there is no such slot.
    pub fn at(&self, slot: u32) -> Option<Slot>
        ensures { result ≡ slot_at self.now slot }
    {
        match self.slots.get(slot as usize) {
            Some(held) => *held,
            None => None,
        }
    }

    /// How many of the slots before this one are filled.
    pub fn before(&self, slot: u32) -> u32
        ensures { result ≡ length (filled (take slot self.now)) }
    {
        self.filled.count_before(slot)
    }

    /// The slot that is filled as this number from the front, from 1; `None` exactly where there is none.
    pub fn nth(&self, position: u32) -> Option<u32>
        ensures { FindsFilled self.now position result }
    {
        self.filled.nth(position)
    }

    /// A tree with the same slots; `NoMemory` where there is none for it.
    pub fn copy(&self, alloc: Global) -> Result<SlotTree, NoMemory>
        ensures { IfOk result (λ tree. tree ≡ self.now) }
    {
        let many = slot_count(self.height);
        let mut slots = Vec::with_capacity(alloc, many)?;
        slots.extend_from_slice(&self.slots)?;
        let mut nodes = Vec::with_capacity(alloc, 2 * many)?;
        nodes.extend_from_slice(&self.nodes)?;
        Ok(SlotTree {
            height: self.height,
            next: self.next,
            slots,
            nodes,
            filled: self.filled,
        })
    }

    /// How many slots there are behind the last filled one.
    pub fn free(&self) -> u32
        ensures { result ≡ length self.now - filled_end self.now }
    {
        (slot_count(self.height) - self.next) as u32
    }

    /// Moves the filled slots to the front, in the same order.
    pub fn compact(&mut self)
        ensures slots { self.new ≡ compacted self.old }
        ensures order { filled self.new ≡ filled self.old }
        ensures front { filled_end self.new ≡ length (filled self.new) }
        ensures length { length self.new ≡ length self.old }
    {
        self.slots.retain(|slot| slot.is_some());
        self.next = self.slots.len();
        keep_all(&mut self.slots, &mut self.nodes, self.height);
        fill(&mut self.nodes, &self.slots);
        mend(&mut self.nodes);
        self.filled.mark_front(self.next);
    }
}

// From now on so many items are kept; those behind the others are this one. It stays a call, since it is done when the first slot is
// filled and where slots are compacted, and else never.
#[inline(never)]
fn fill_up<T: Copy>(items: &mut Vec<T>, many: usize, item: T)
    requires few { length items.old.items ≤ many }
    requires room { many ≤ vec_capacity items.old }
    ensures items { items.new.items ≡ items.old.items ++ replicate (many - length items.old.items) item }
    ensures room { vec_capacity items.old ≤ vec_capacity items.new }
{
    let _filled = items.resize(many, item);
}

// From now on all slots and nodes of a tree of so many levels below the root are kept.
fn keep_all(slots: &mut Vec<Option<Slot>>, nodes: &mut Vec<u32>, height: u32)
    requires low { height ≤ 10 }
    requires room { HasRoom height (length slots.old.items) (vec_capacity slots.old) (length nodes.old.items) (vec_capacity nodes.old) }
    ensures slots { slots.new.items ≡ all_slots height slots.old.items }
    ensures nodes { nodes.new.items ≡ all_nodes height nodes.old.items }
    ensures slots_room { vec_capacity slots.old ≤ vec_capacity slots.new }
    ensures nodes_room { vec_capacity nodes.old ≤ vec_capacity nodes.new }
{
    let many = slot_count(height);
    if slots.len() < many {
        fill_up(slots, many, None);
    }
    if nodes.len() < 2 * many {
        fill_up(nodes, 2 * many, EMPTY);
    }
}

// Writes a slot, its number into the nodes, and whether it is filled.
fn put(
    slots: &mut Vec<Option<Slot>>,
    nodes: &mut Vec<u32>,
    filled: &mut FilledSlots,
    slot: usize,
    value: Option<Slot>,
)
    requires within { slot < length slots.old.items }
    requires twice { length nodes.old.items ≡ 2 * length slots.old.items }
    requires least { AreLeast nodes.old.items }
    requires keys { KeysStand slots.old.items nodes.old.items }
    requires few { slot < SLOT_LIMIT }
    requires told { TellFilled slots.old.items filled.old.words }
    ensures slots { slots.new.items ≡ slice_set slots.old.items slot value }
    ensures length { length nodes.new.items ≡ length nodes.old.items }
    ensures least { AreLeast nodes.new.items }
    ensures keys { KeysStand slots.new.items nodes.new.items }
    ensures told { TellFilled slots.new.items filled.new.words }
    ensures slots_room { vec_capacity slots.new ≡ vec_capacity slots.old }
    ensures nodes_room { vec_capacity nodes.new ≡ vec_capacity nodes.old }
{
    slots[slot] = value;
    let number = key_of(&value);
    write(nodes, slots.len() + slot, number);
    filled.mark(slot, value.is_some());
}
