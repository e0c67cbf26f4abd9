//! What legal histories hold of open offers, and so of what crew calls come to.
ghost use Rattle.crew_call.specs.Ended.{EndedBetween};
ghost use Rattle.crew_call.specs.Outcomes.{OutcomesInWords};

use desk_model::{an_open_offer_may_be_settled, the_first_entries_are_legal};

/// In a legal history an offer stays open until an entry that was accepted ends it: the person's acceptance, decline or missing answer, a
/// withdrawal, or that the job is called off. So where it is withdrawn in vain, such an entry came before. It only names the laws that it
/// rests on: its clause is the law.
pub fn who_ended_an_offer()
    ensures { EndedBetween }
{
    an_open_offer_may_be_settled();
    the_first_entries_are_legal();
}

/// What the outcome of a crew call says, wherever its entries stand in a legal history. It only names the laws that it rests on: its
/// clause is the law.
pub fn what_an_outcome_says()
    ensures { OutcomesInWords }
{
    the_first_entries_are_legal();
    who_ended_an_offer();
}
