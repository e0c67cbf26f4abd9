//! The first of one board whom nothing bars.
ghost use Rattle.std.specs.Prelude.{◌≡◌, ℕ, ◌+◌, ◌*◌, ◌≤◌, true, Option, length};
ghost use Rattle.slot_tree.specs.declared.limits.TheConstants.{SLOT_LIMIT};
ghost use Rattle.denial_rules.specs.declared.bar.Bar.{Bar};
ghost use Rattle.slot_tree.specs.Slots.{filled};
ghost use Rattle.pool_board.specs.Members.{persons, are_distinct};
ghost use Rattle.vacancy_fill.specs.Chain.{positions, first_free, BarsUnready, passed_over};

use crate::{Found, Judge};
use desk_base::Minute;
use slot_tree::{SlotTree, Steps};
use std::sync::ledger::Ledger;

/// The first member of the board at this link whom nothing bars. Those who aren't ready have a bar and are passed over by a
/// search, which reads at most 44 nodes for each member who is ready and has a bar, and once more.
pub(crate) fn first_on<J: Judge, L: Ledger>(
    slots: &SlotTree,
    link: u8,
    judge: &J,
    m: Minute,
    steps: &mut Steps<L>,
) -> Option<Found>
    requires length { length slots.now ≡ SLOT_LIMIT }
    requires most { length (filled slots.now) ≤ 500 }
    requires distinct { are_distinct (persons (filled slots.now)) ≡ true }
    ensures first { (barred : ℕ → Option Bar) → J.judges judge.now barred → BarsUnready barred m (filled slots.now)
        → result ≡ first_free barred (positions link 1 (persons (filled slots.now))) }
    ensures cost { (barred : ℕ → Option Bar) → J.judges judge.now barred → BarsUnready barred m (filled slots.now)
        → steps.new ≤ steps.old + (passed_over barred m (filled slots.now) + 1) * (4 * (10 + 1)) }
{
    let mut from = 0;
    while let Some(at) = slots.first_from(from, m, steps) {
        let Some(held) = slots.at(at) else {
            return None;
        };
        if judge.bar(held.person).is_none() {
            return Some(Found {
                link,
                person: held.person,
                position: slots.before(at) as u16 + 1,
            });
        }
        from = at + 1;
    }
    None
}
