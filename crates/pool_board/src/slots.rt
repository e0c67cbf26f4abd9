//! A person among the slots of a board.
ghost use Rattle.std.specs.Prelude.{◌≡◌, ℕ, ◌<◌, ◌≤◌, IfSome, None, Some, true, false, [], ◌∷◌, ◌++◌, is_some, length, slice_set};
ghost use Rattle.slot_tree.specs.declared.limits.TheConstants.{SLOT_LIMIT};
ghost use Rattle.slot_tree.specs.Slots.{slot_at, filled, filled_end};
ghost use Rattle.pool_board.specs.Members.{holds, is_listed};

use desk_base::{IndexHints, Minute, PersonNo};
use slot_tree::{SLOT_LIMIT, SlotTree};

/// Where a person stands, and from when on they are ready.
#[derive(Clone, Copy, Debug)]
pub(crate) struct Standing {
    pub(crate) slot: u32,
    pub(crate) ready: Minute,
}

// The person in this slot; `None` exactly where it holds nobody or somebody else.
fn look(tree: &SlotTree, slot: u32, person: PersonNo) -> Option<Standing>
    ensures found { IfSome result (λ at. slot_at tree.now at.slot
        ≡ Some (record { person = person; ready = at.ready })) }
    ensures only { result ≡ None → holds person (slot_at tree.now slot) ≡ false }
{
    match tree.at(slot) {
        Some(held) => {
            if held.person == person {
                Some(Standing {
                    slot,
                    ready: held.ready,
                })
            } else {
                None
            }
        }
        None => None,
    }
}

/// The slot of a person, who may be in that of the hint; `None` exactly where the person is in none.
pub(crate) fn find(tree: &SlotTree, hint: u32, person: PersonNo) -> Option<Standing>
    requires { length tree.now ≡ SLOT_LIMIT }
    ensures found { IfSome result (λ at. slot_at tree.now at.slot
        ≡ Some (record { person = person; ready = at.ready })) }
    ensures only { result ≡ None → is_listed person (filled tree.now) ≡ false }
{
    if let Some(at) = look(tree, hint, person) {
        return Some(at);
    }
    // Behind the last filled slot nobody stands.
    for slot in 0..SLOT_LIMIT - tree.free() {
        if let Some(at) = look(tree, slot, person) {
            return Some(at);
        }
    }
    None
}

/// The number of a person's hint on the board of this number: one board's stand behind those of another, 4,096 of each.
pub(crate) fn hint_number(board: u8, person: PersonNo) -> u32 {
    u32::from(board) * 4_096 + person.number() % 4_096
}

// All persons were moved.
fn renew(hints: &mut IndexHints, board: u8, tree: &SlotTree) {
    for slot in 0..SLOT_LIMIT {
        if let Some(held) = tree.at(slot) {
            hints.set(hint_number(board, held.person), slot as usize);
        }
    }
}

/// Sees to it that a slot is free behind the last filled one.
pub(crate) fn make_room(tree: &mut SlotTree, hints: &mut IndexHints, board: u8)
    requires { length (filled tree.old) < length tree.old }
    ensures room { filled_end tree.new < length tree.new }
    ensures order { filled tree.new ≡ filled tree.old }
    ensures length { length tree.new ≡ length tree.old }
{
    if tree.free() == 0 {
        tree.compact();
        renew(hints, board, tree);
    }
}

/// Empties a filled slot, and fills one behind all others by the person.
pub(crate) fn move_last(
    tree: &mut SlotTree,
    hints: &mut IndexHints,
    board: u8,
    slot: u32,
    person: PersonNo,
    ready: Minute,
)
    requires filled { is_some (slot_at tree.old slot) ≡ true }
    requires most { length (filled tree.old) ≤ length tree.old }
    ensures order { filled tree.new ≡ filled (slice_set tree.old slot None) ++ record { person = person; ready = ready } ∷ [] }
    ensures length { length tree.new ≡ length tree.old }
{
    tree.clear(slot);
    make_room(tree, hints, board);
    let last = tree.append(person, ready);
    hints.set(hint_number(board, person), last as usize);
}
