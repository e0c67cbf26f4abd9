ghost use Rattle.std.specs.Prelude.{◌≡◌, false, IsTrue};
ghost use Rattle.std.specs.Option.{SomeIff};
ghost use Rattle.std.specs.Bool.{Decides};
ghost use Rattle.desk_model.specs.statements.Statement.{stated_of};
ghost use Rattle.desk_model.specs.statements.Fits.{IsEvent, IsJob, IsCommand, IsStated};

use crate::{Cmd, Job, POSITION_LIMIT};
use desk_base::Minute;
use duty_events::Event;
use std::marker::Model;

/// A command, and the minute at which it was stated.
#[derive(Clone, Copy, Debug, PartialEq, Eq)]
pub struct Stated {
    minute: Minute,
    cmd: Cmd,
}

impl Model for Stated {
    ghost use Rattle.desk_model.specs.statements.Statement.{StatedValue, stated_of};
    ghost use Rattle.desk_model.specs.statements.Fits.{IsStated};

    ghost Value = { StatedValue };

    ghost view = { λ s. stated_of s.minute s.cmd };

    ghost invariant = { λ s. IsStated (stated_of s.minute s.cmd) };

    ghost inverse = { λ v. record { minute = v.minute; cmd = v.cmd } };
}

impl Stated {
    /// A command stated at a minute; `None` where that minute, or one that the command tells of an event, or the
    /// month that it asks about, lies outside the years 2000 to 2099, or the position on a board that it asks about
    /// isn't 1 to 9,999.
    #[inline]
    pub fn new(minute: Minute, cmd: Cmd) -> Option<Stated>
        ensures { SomeIff result (IsStated (stated_of minute cmd)) (stated_of minute cmd) }
    {
        if minute.is_in_years() && is_command(&cmd) {
            Some(Stated { minute, cmd })
        } else {
            None
        }
    }

    /// Takes this command, stated at this minute, in place of what stood here; false where one of them has not the form that `new` asks
    /// for, and then nothing changes. It is `new` without moving the command about.
    #[inline]
    pub fn put(&mut self, minute: Minute, cmd: &Cmd) -> bool
        ensures fits { Decides result (IsStated (stated_of minute cmd.now)) }
        ensures put { IsTrue result → self.new ≡ stated_of minute cmd.now }
        ensures same { result ≡ false → self.new ≡ self.old }
    {
        if minute.is_in_years() && is_command(cmd) {
            self.minute = minute;
            self.cmd = *cmd;
            true
        } else {
            false
        }
    }

    /// The minute, of the years 2000 to 2099.
    pub fn minute(&self) -> Minute
        ensures value { result ≡ self.now.minute }
        ensures range { IsStated self.now }
    {
        self.minute
    }

    /// The command, each of whose values is in its range.
    pub fn cmd(&self) -> &Cmd
        ensures value { result.now ≡ self.now.cmd }
        ensures range { IsStated self.now }
    {
        &self.cmd
    }
}

// Each value of the command has its form: those that tell of time lie in the years 2000 to 2099, and of the others their types
// keep it.
fn is_command(cmd: &Cmd) -> bool
    ensures { Decides result (IsCommand cmd.now) }
{
    match cmd {
        Cmd::Enrol {
            person,
            home,
            quals,
            ..
        } => {
            person.number();
            home.text();
            quals.bits();
            true
        }
        Cmd::Board { board, place, .. } => {
            board.text();
            place.text();
            true
        }
        Cmd::List { person, board } | Cmd::Unlist { person, board } => {
            person.number();
            board.text();
            true
        }
        Cmd::MarkOff { person } | Cmd::MarkOn { person } | Cmd::Drop { person } => {
            person.number();
            true
        }
        Cmd::Qualify { person, quals } => {
            person.number();
            quals.bits();
            true
        }
        Cmd::Past { person, event } => {
            person.number();
            is_event(event)
        }
        Cmd::Happened { person, event } => {
            person.number();
            is_event(event)
        }
        Cmd::Vacancy(job) => is_job(job),
        Cmd::Next { vac } | Cmd::Annul { vac } | Cmd::Vac { vac } => {
            vac.number();
            true
        }
        Cmd::Hours { person, month } => {
            person.number();
            month.is_in_years()
        }
        Cmd::At { board, place } => {
            board.text();
            *place >= 1 && *place <= POSITION_LIMIT
        }
        Cmd::Offer { vac, person }
        | Cmd::Accept { vac, person }
        | Cmd::Decline { vac, person }
        | Cmd::NoAnswer { vac, person }
        | Cmd::Withdraw { vac, person }
        | Cmd::Explain { vac, person } => {
            vac.number();
            person.number();
            true
        }
    }
}

// Each value of the event has its form.
fn is_event(event: &Event) -> bool
    ensures { Decides result (IsEvent event.now) }
{
    match event {
        Event::Interim(at, _, place) | Event::Final(at, place) => {
            place.text();
            at.is_in_years()
        }
        Event::Other(span, place) => {
            place.text();
            span.from().is_in_years() && span.to().is_in_years()
        }
        Event::Ride(at)
        | Event::Duty(at)
        | Event::Resume(at)
        | Event::Relieve(at)
        | Event::RideHome(at) => at.is_in_years(),
    }
}

// So has each value of a job.
fn is_job(job: &Job) -> bool
    ensures { Decides result (IsJob job.now) }
{
    job.vac().number();
    job.quals().bits();
    job.place().text();
    job.report();
    job.duty();
    job.limbo();
    job.chain().codes();
    true
}
