ghost use Rattle.std.specs.Prelude.{◌≡◌, ℕ, ◌+◌, ◌<◌, ◌≤◌, Option, length};
ghost use Rattle.denial_rules.specs.declared.bar.Bar.{Bar};
ghost use Rattle.std.specs.List.{All};
ghost use Rattle.vacancy_fill.specs.Chain.{members_at, chain_from, first_free, BarsUnready, most_steps};

use crate::Judge;
use crate::on_board::first_on;
use desk_base::{Minute, PersonNo};
use pool_board::Board;
use slot_tree::Steps;
use std::sync::ledger::Ledger;

/// A position in a vacancy's chain of boards.
#[derive(Clone, Copy, Debug, PartialEq, Eq)]
pub struct Found {
    /// The link of the chain, from 0.
    pub link: u8,
    /// Who stands there.
    pub person: PersonNo,
    /// The position on that link's board, from 1.
    pub position: u16,
}

/// The first of the chain whom nothing bars; `None` exactly where each has a bar: by every function from persons to bars that the
/// judge agrees with and that gives a bar to each member of the chain's boards who isn't ready at the minute. The chain names at
/// most 4 boards by their indexes. The steps are nodes that searches of boards read.
pub fn first<J: Judge, L: Ledger>(
    boards: &[Board],
    chain: &[u8],
    judge: &J,
    m: Minute,
    steps: &mut Steps<L>,
) -> Option<Found>
    requires few { length chain.now ≤ 4 }
    requires boards { All (λ index. index < length boards.now) chain.now }
    ensures first { (barred : ℕ → Option Bar) → J.judges judge.now barred
        → All (λ index. BarsUnready barred m (members_at boards.now index)) chain.now
        → result ≡ first_free barred (chain_from boards.now 0 chain.now) }
    ensures cost { (barred : ℕ → Option Bar) → J.judges judge.now barred
        → All (λ index. BarsUnready barred m (members_at boards.now index)) chain.now
        → steps.new ≤ steps.old + most_steps barred m boards.now chain.now }
{
    for link in 0..chain.len() {
        let board = &boards[usize::from(chain[link])];
        if let Some(found) = first_on(board.slots(), link as u8, judge, m, steps) {
            return Some(found);
        }
    }
    None
}
