ghost use Rattle.std.specs.Prelude.{◌≡◌, ◌≤◌, length, vec_capacity};
ghost use Rattle.desk_model.specs.declared.limits.TheConstants.{MEMBER_LIMIT};
ghost use Rattle.desk_model.specs.histories.History.{History};
ghost use Rattle.desk_model.specs.boards.Boards.{links, chain};
ghost use Rattle.desk_model.specs.answers.ExplainAnswer.{position_in};
ghost use Rattle.plain_core.specs.Kept.{IsKept};
ghost use Rattle.plain_core.specs.Room.{HasRoom};

use crate::kept::Kept;
use crate::lists::Lists;
use desk_base::{Code, PersonNo};
use desk_model::{Chain, Link};

// The position of this person among the members of a board, from 1.
fn position_on(board: &Code, members: &[PersonNo], person: PersonNo) -> Option<Link>
    requires { length members.now ≤ MEMBER_LIMIT }
    ensures { result ≡ position_in (links board.now 1 members.now) person }
{
    let mut position = 1;
    for other in members {
        if *other == person {
            return Some(Link {
                board: *board,
                position,
                person: *other,
            });
        }
        position += 1;
    }
    None
}

impl Kept {
    /// The first position of the chain that is this person's.
    pub(crate) fn first_position(
        &self,
        lists: &mut Lists,
        boards: &Chain,
        person: PersonNo,
    ) -> Option<Link>
        requires { HasRoom (vec_capacity self.now.entries) lists.old }
        ensures first { (h : History) → IsKept self.now.opening self.now.entries.items h
            → result ≡ position_in (chain h boards.now) person }
        ensures room { HasRoom (vec_capacity self.now.entries) lists.new }
    {
        for board in boards.codes() {
            self.fill_members(board, &mut lists.members);
            if let Some(link) = position_on(board, &lists.members, person) {
                return Some(link);
            }
        }
        None
    }

    /// How many positions the chain has.
    pub(crate) fn count_listed(&self, lists: &mut Lists, boards: &Chain) -> u16
        requires { HasRoom (vec_capacity self.now.entries) lists.old }
        ensures listed { (h : History) → IsKept self.now.opening self.now.entries.items h
            → result ≡ length (chain h boards.now) }
        ensures room { HasRoom (vec_capacity self.now.entries) lists.new }
    {
        let mut listed = 0;
        for board in boards.codes() {
            self.fill_members(board, &mut lists.members);
            listed += lists.members.len() as u16;
        }
        listed
    }
}
