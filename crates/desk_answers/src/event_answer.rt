ghost use Rattle.std.specs.Prelude.{◌≡◌};
ghost use Rattle.desk_model.specs.histories.History.{History};
ghost use Rattle.desk_model.specs.histories.Duty.{events};
ghost use Rattle.desk_model.specs.declared.reply.Reply.TheVariants as reply;
ghost use Rattle.desk_model.specs.answers.EventAnswer.{told_answer, past_answer, unless_frozen, event_answer};

use crate::Reads;
use desk_base::{Minute, PersonNo, VacNo};
use desk_model::Reply;
use duty_events::Event;

// What an event gives at a moment, after the person's events.
fn told_answer<R: Reads>(
    reads: &R,
    work: &mut R::Work,
    moment: Minute,
    person: PersonNo,
    event: &Event,
) -> Reply
    requires { R.suits reads.now work.old }
    ensures answer { (h : History) → R.tells reads.now h
        → result ≡ told_answer h.opening (events h person) moment event.now }
    ensures suits { R.suits reads.now work.new }
    ensures steps { R.steps work.new ≡ R.steps work.old }
{
    if event.first_minute() < reads.opening().window().start() {
        return Reply::OutsideWindow;
    }
    if moment < event.last_minute() {
        return Reply::EventAhead(moment);
    }
    match reads.allow(work, person, event) {
        Ok(_) => Reply::Done,
        Err(fault) => Reply::Event(fault),
    }
}

/// The answer to `past` at a moment.
pub(crate) fn past_answer<R: Reads>(
    reads: &R,
    work: &mut R::Work,
    moment: Minute,
    person: PersonNo,
    event: &Event,
) -> Reply
    requires { R.suits reads.now work.old }
    ensures answer { (h : History) → R.tells reads.now h
        → result ≡ past_answer h moment person event.now }
    ensures suits { R.suits reads.now work.new }
    ensures steps { R.steps work.new ≡ R.steps work.old }
{
    if reads.person(person).is_none() {
        Reply::UnknownPerson
    } else if reads.is_closed(person) {
        Reply::PastClosed
    } else {
        told_answer(reads, work, moment, person, event)
    }
}

/// The answer to what is done, unless this vacancy is on offer to the person who asks, or assigned to them.
pub(crate) fn done_unless_frozen(vac: Option<VacNo>) -> Reply
    ensures { result ≡ unless_frozen vac reply.Done }
{
    match vac {
        Some(vac) => Reply::Frozen(vac),
        None => Reply::Done,
    }
}

/// The answer to `event` at a moment.
pub(crate) fn event_answer<R: Reads>(
    reads: &R,
    work: &mut R::Work,
    moment: Minute,
    person: PersonNo,
    event: &Event,
) -> Reply
    requires { R.suits reads.now work.old }
    ensures answer { (h : History) → R.tells reads.now h
        → result ≡ event_answer h moment person event.now }
    ensures suits { R.suits reads.now work.new }
    ensures steps { R.steps work.new ≡ R.steps work.old }
{
    if reads.person(person).is_none() {
        return Reply::UnknownPerson;
    }
    match reads.on_offer(person) {
        Some(vac) => Reply::Frozen(vac),
        None => told_answer(reads, work, moment, person, event),
    }
}
