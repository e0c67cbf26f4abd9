//! What the lists rest on.
ghost use Rattle.std.specs.Prelude.{◌≡◌, ◌<◌, ◌^◌, ℕ, true, Some};
ghost use Rattle.desk_model.specs.statements.Entry.{EntryValue};
ghost use Rattle.desk_model.specs.histories.History.{History};
ghost use Rattle.desk_model.specs.histories.Legal.{IsLegal, IsNext};
ghost use Rattle.desk_model.specs.histories.Register.{persons};
ghost use Rattle.desk_register.specs.Among.{index_among};
ghost use Rattle.desk_state.specs.declared.lists.Lists.{Lists as ListsValue};
ghost use Rattle.desk_state.specs.Laws.{Laws};
ghost use Rattle.desk_state.specs.Lists.{Keeps, is_on_one, IsOnOne};

use desk_model::{
    order_is_by_rank, what_an_entry_makes_of_the_desk, what_is_done_rests_on,
    who_is_on_a_board_is_listed,
};
use desk_register::who_is_enrolled_has_an_index;

/// What is so of a legal history and its next entry. It only names the laws that it rests on: its clause is the law.
pub(crate) fn what_the_lists_rest_on()
    ensures { (h : History) (e : EntryValue) → IsLegal h → IsNext h e → Laws h e }
{
    what_an_entry_makes_of_the_desk();
    what_is_done_rests_on();
    who_is_on_a_board_is_listed();
    order_is_by_rank();
    who_is_enrolled_has_an_index();
}

/// Who is kept as on one of some boards, each as a bit by its index among all, is on it. It does nothing: its clause is the law.
pub fn who_is_kept_on_a_board_is_on_it()
    ensures { (l : ListsValue) (h : History) (p i boards : ℕ) → Keeps l h → boards < 2 ^ 64 → index_among (persons h) p ≡ Some i
        → is_on_one l i boards ≡ true → IsOnOne h p boards }
{}
