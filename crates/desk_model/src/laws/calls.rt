//! Who is offered a vacancy, who is denied and who is run around: what holds of the answers to `next`, `offer` and `explain`.
ghost use Rattle.std.specs.Prelude.{◌≡◌, ◌↔◌, ◌<◌, ℕ, List, true, false, is_some};
ghost use Rattle.std.specs.List.{All, filter_map};
ghost use Rattle.rest_rules.specs.Rest.{rest_end};
ghost use Rattle.desk_model.specs.declared.link.Link.{Link};
ghost use Rattle.desk_model.specs.declared.person.Person.{Person};
ghost use Rattle.desk_model.specs.declared.reply.Reply.TheVariants as reply;
ghost use Rattle.desk_model.specs.statements.Entry.{EntryValue};
ghost use Rattle.desk_model.specs.statements.Job.{JobValue};
ghost use Rattle.desk_model.specs.histories.History.{History, with_entry, steps, said};
ghost use Rattle.desk_model.specs.boards.Boards.{order, chain};
ghost use Rattle.desk_model.specs.boards.Rank.{IsByRank, IsOnce};
ghost use Rattle.desk_model.specs.histories.Duty.{tells, events, in_tour};
ghost use Rattle.desk_model.specs.offers.Offers.{open_offer, is_to};
ghost use Rattle.desk_model.specs.offers.Bars.{bar_of};
ghost use Rattle.desk_model.specs.laws.Refusal.{changes, IsSameDesk};
ghost use Rattle.desk_model.specs.answers.NextAnswer.{next_answer};
ghost use Rattle.desk_model.specs.laws.Denials.{IsOpen, AreBarred, IsUnfilled, IsFirstClear, OffersRightly, IsUnfilledRightly, DeniesRightly, RunsAroundRightly};
ghost use Rattle.desk_model.specs.histories.Legal.{IsLegal};

use law_bars::{no_bar_where_the_law_is_kept, who_is_rested_was_off_ten_hours};

/// In a legal history a vacancy that is vacant, at a moment not after its report, is unfilled exactly where each who
/// stands in its chain is enrolled and has a bar, and else offered to the first who has none. It does nothing: its
/// clauses are the law.
pub fn unfilled_where_all_are_barred()
    ensures unfilled { (h : History) → IsLegal h → (m v : ℕ) (job : JobValue) → IsOpen h m v job
        → IsUnfilled h job (next_answer h m v) ↔ AreBarred h m job (chain h job.chain) }
    ensures first { (h : History) → IsLegal h → (m v : ℕ) (job : JobValue) (link : Link)
        → IsOpen h m v job → IsFirstClear h m job link
        → next_answer h m v ≡ reply.Offered link.person link.board link.position }
{}

/// At each entry of a legal history whose reply offers a vacancy, whoever asked, that was vacant, and its report isn't past.
/// It is offered to the first of its chain, as that stood before the entry, whom at the entry's moment nothing bars; and no
/// section of the law keeps them from it, by the events that were told so far: they are off in each of the ten hours before
/// its report, 49 USC 21103(a)(3). It only names the laws that it rests on: its clause is the law.
pub fn each_offer_is_right()
    ensures { (h : History) → IsLegal h → All OffersRightly (steps h) }
{
    no_bar_where_the_law_is_kept();
    who_is_rested_was_off_ten_hours();
}

/// At each entry of a legal history whose reply says that a vacancy is unfilled, that was vacant, and its report isn't past;
/// and at the entry's moment all who stood in its chain before the entry were enrolled and barred: as many as the reply
/// tells. It does nothing: its clause is the law.
pub fn each_unfilled_vacancy_is_one()
    ensures { (h : History) → IsLegal h → All IsUnfilledRightly (steps h) }
{}

/// At each entry of a legal history whose reply denies, whether `explain` or `offer` asked, the person stood in the
/// vacancy's chain, and the bar is the first that kept them from it at the entry's moment. It does nothing: its clause is
/// the law.
pub fn each_denial_names_the_first_bar()
    ensures { (h : History) → IsLegal h → All DeniesRightly (steps h) }
{}

/// At each entry of a legal history whose reply tells who would be run around, `offer` named somebody of the chain whom
/// nothing bars, and the reply names another, who is the first of it whom nothing bars. It does nothing: its clause is the
/// law.
pub fn each_run_around_names_the_first()
    ensures { (h : History) → IsLegal h → All RunsAroundRightly (steps h) }
{}

/// Who is in a tour of duty is barred from every job at every moment, and who is in none at every moment before their rest ends. It
/// only names the law that it rests on: its clauses are the laws.
pub fn who_is_not_ready_is_barred()
    ensures tour { (h : History) (m : ℕ) (job : JobValue) (p : ℕ) (person : Person) → in_tour h p ≡ true
        → is_some (bar_of h m job p person) ≡ true }
    ensures rest { (h : History) (m : ℕ) (job : JobValue) (p : ℕ) (person : Person) → in_tour h p ≡ false
        → m < rest_end (events h p) → is_some (bar_of h m job p person) ≡ true }
{
    no_bar_where_the_law_is_kept();
}
