ghost use Rattle.std.specs.Prelude.{◌≡◌, ◌≤◌, ◌+◌};
ghost use Rattle.desk_model.specs.declared.limits.TheConstants.{LAST_CALLER};
ghost use Rattle.desk_model.specs.statements.Fits.{IsStated};
ghost use Rattle.desk_model.specs.histories.History.{History};
ghost use Rattle.desk_model.specs.histories.Legal.{last_moment, moment, answer_to, answer, next};
ghost use Rattle.desk_answers.specs.Searched.{most_steps};

use crate::Reads;
use crate::board_answers::{board_answer, list_answer, unlist_answer};
use crate::event_answer::{event_answer, past_answer};
use crate::give_up_answer::{annul_answer, drop_answer};
use crate::moment::{is_within, moment};
use crate::next_answer::next_answer;
use crate::offer_answer::offer_answer;
use crate::person_answers::{enrol_answer, off_answer, on_answer, qualify_answer};
use crate::question_answers::{at_answer, explain_answer, hours_answer, vac_answer};
use crate::settle_answer::{accept_answer, decline_answer, no_answer};
use crate::vacancy_answer::vacancy_answer;
use desk_base::Minute;
use desk_model::{Cmd, EntryRef, LAST_CALLER, Reply, Stated};

// The answer to a command at a moment. It stays a call: inlined, each reply is copied from place to place.
#[inline(never)]
fn answer_to<R: Reads>(reads: &R, work: &mut R::Work, moment: Minute, cmd: &Cmd) -> Reply
    requires { R.suits reads.now work.old }
    ensures answer { (h : History) → R.tells reads.now h → last_moment h ≤ moment
        → result ≡ answer_to h moment cmd.now }
    ensures suits { R.suits reads.now work.new }
    ensures steps { (h : History) → R.tells reads.now h → last_moment h ≤ moment
        → R.steps work.new ≤ R.steps work.old + most_steps (R.most reads.now h) h moment cmd.now }
{
    match cmd {
        Cmd::Enrol { person, .. } => enrol_answer(reads, *person),
        Cmd::Board { board, .. } => board_answer(reads, board),
        Cmd::List { person, board } => list_answer(reads, work, *person, board),
        Cmd::Unlist { person, board } => unlist_answer(reads, *person, board),
        Cmd::MarkOff { person } => off_answer(reads, *person),
        Cmd::MarkOn { person } => on_answer(reads, *person),
        Cmd::Qualify { person, .. } => qualify_answer(reads, *person),
        Cmd::Past { person, event } => past_answer(reads, work, moment, *person, event),
        Cmd::Happened { person, event } => event_answer(reads, work, moment, *person, event),
        Cmd::Vacancy(job) => vacancy_answer(reads, moment, job),
        Cmd::Next { vac } => next_answer(reads, work, moment, *vac),
        Cmd::Offer { vac, person } => offer_answer(reads, work, moment, *vac, *person),
        Cmd::Accept { vac, person } => accept_answer(reads, moment, *vac, *person),
        Cmd::Decline { vac, person } => decline_answer(reads, *vac, *person),
        Cmd::NoAnswer { vac, person } => no_answer(reads, moment, *vac, *person),
        Cmd::Withdraw { vac, person } => decline_answer(reads, *vac, *person),
        Cmd::Annul { vac } => annul_answer(reads, *vac),
        Cmd::Drop { person } => drop_answer(reads, *person),
        Cmd::Hours { person, month } => hours_answer(reads, work, *person, *month),
        Cmd::At { board, place } => at_answer(reads, work, board, *place),
        Cmd::Explain { vac, person } => explain_answer(reads, work, moment, *vac, *person),
        Cmd::Vac { vac } => vac_answer(reads, *vac),
    }
}

// The answer to what is stated; a minute outside the window is named before all else.
fn answer<R: Reads>(reads: &R, work: &mut R::Work, taken: Minute, stated: &Stated) -> Reply
    requires { R.suits reads.now work.old }
    ensures answer { (h : History) → R.tells reads.now h → taken ≡ moment h stated.now.minute
        → result ≡ answer h stated.now }
    ensures suits { R.suits reads.now work.new }
    ensures steps { (h : History) → R.tells reads.now h → taken ≡ moment h stated.now.minute
        → R.steps work.new ≤ R.steps work.old + most_steps (R.most reads.now h) h taken stated.now.cmd }
{
    if is_within(&reads.opening().window(), stated.minute()) {
        answer_to(reads, work, taken, stated.cmd())
    } else {
        Reply::OutsideWindow
    }
}

/// The entry that the rules give for what caller 0 to 63 states.
pub fn next_entry<'s, R: Reads>(
    reads: &R,
    work: &mut R::Work,
    caller: u8,
    stated: &'s Stated,
) -> EntryRef<'s>
    requires caller { caller ≤ LAST_CALLER }
    requires suits { R.suits reads.now work.old }
    ensures entry { (h : History) → R.tells reads.now h → result ≡ next h caller stated.now }
    ensures stated { IsStated stated.now }
    ensures suits { R.suits reads.now work.new }
    ensures steps { (h : History) → R.tells reads.now h
        → R.steps work.new ≤ R.steps work.old + most_steps (R.most reads.now h) h (moment h stated.now.minute) stated.now.cmd }
{
    let taken = moment(reads, stated.minute());
    let reply = answer(reads, work, taken, stated);
    EntryRef::new(caller, stated, taken, reply)
}
