//! What is stated, as the fields of a record.
ghost use Rattle.std.specs.Prelude.{◌≡◌, ◌≤◌, ◌+◌, [], ◌∷◌, ◌++◌, length, decimal};
ghost use Rattle.std.specs.List.{join_with_byte};
ghost use Rattle.arrayvec.specs.ArrayVec.{array_vec_len};
ghost use Rattle.desk_base.specs.Minute.{minute_text};
ghost use Rattle.desk_model.specs.texts.StatedTexts.{command_fields, stated_fields, kind_text, event_fields, job_word, job_fields};
ghost use Rattle.line_writer.specs.Marked.{marked};

use crate::line_text::{LineText, put, put_field, put_number_field};
use desk_base::{Minute, PersonNo, VacNo};
use desk_model::{Cmd, Job, Stated};
use duty_events::{Event, Kind};
use record_rows::LastMinute;

/// Adds the fields of what is stated, joined by commas, 360 bytes at most.
pub(crate) fn put_stated(line: &mut LineText, last: &mut LastMinute, stated: &Stated)
    requires { array_vec_len line.old + 360 ≤ 512 }
    ensures text { line.new.items ≡ line.old.items ++ join_with_byte 44 (stated_fields stated.now) }
    ensures len { array_vec_len line.new ≤ array_vec_len line.old + 360 }
{
    put(line, &last.write(stated.minute()));
    put_command(line, last, stated.cmd());
}

// Adds each field of the command behind a comma.
fn put_command(line: &mut LineText, last: &mut LastMinute, cmd: &Cmd)
    requires { array_vec_len line.old + 340 ≤ 512 }
    ensures text { line.new.items ≡ line.old.items ++ marked (command_fields cmd.now) }
    ensures len { array_vec_len line.new ≤ array_vec_len line.old + 340 }
{
    match cmd {
        Cmd::Enrol {
            person,
            craft,
            home,
            quals,
        } => {
            put_about_person(line, b"enrol", *person);
            put_field(line, craft.text());
            put_field(line, home.text());
            put_field(line, quals.write().as_slice());
        }
        Cmd::Board {
            board,
            extra,
            place,
        } => {
            put_field(line, b"board");
            put_field(line, board.text());
            put_field(line, if *extra { b"extra" } else { b"pool" });
            put_field(line, place.text());
        }
        Cmd::List { person, board } => {
            put_about_person(line, b"list", *person);
            put_field(line, board.text());
        }
        Cmd::Unlist { person, board } => {
            put_about_person(line, b"unlist", *person);
            put_field(line, board.text());
        }
        Cmd::MarkOff { person } => put_about_person(line, b"off", *person),
        Cmd::MarkOn { person } => put_about_person(line, b"on", *person),
        Cmd::Qualify { person, quals } => {
            put_about_person(line, b"qualify", *person);
            put_field(line, quals.write().as_slice());
        }
        Cmd::Past { person, event } => {
            put_about_person(line, b"past", *person);
            put_event(line, last, event);
        }
        Cmd::Happened { person, event } => {
            put_about_person(line, b"event", *person);
            put_event(line, last, event);
        }
        Cmd::Vacancy(job) => {
            put_field(line, job_word(job.is_relief()));
            put_job(line, job);
        }
        Cmd::Next { vac } => put_about_vac(line, b"next", *vac),
        Cmd::Offer { vac, person } => put_about_offer(line, b"offer", *vac, *person),
        Cmd::Accept { vac, person } => put_about_offer(line, b"accept", *vac, *person),
        Cmd::Decline { vac, person } => put_about_offer(line, b"decline", *vac, *person),
        Cmd::NoAnswer { vac, person } => put_about_offer(line, b"noanswer", *vac, *person),
        Cmd::Withdraw { vac, person } => put_about_offer(line, b"withdraw", *vac, *person),
        Cmd::Annul { vac } => put_about_vac(line, b"annul", *vac),
        Cmd::Drop { person } => put_about_person(line, b"drop", *person),
        Cmd::Hours { person, month } => {
            put_about_person(line, b"hours", *person);
            put_field(line, &month.write());
        }
        Cmd::At { board, place } => {
            put_field(line, b"at");
            put_field(line, board.text());
            put_number_field(line, u32::from(*place));
        }
        Cmd::Explain { vac, person } => put_about_offer(line, b"explain", *vac, *person),
        Cmd::Vac { vac } => put_about_vac(line, b"vac", *vac),
    }
}

// Adds the word of a command about a person, and the person, each behind a comma.
fn put_about_person(line: &mut LineText, word: &[u8], person: PersonNo)
    requires { array_vec_len line.old + length word.now + 12 ≤ 512 }
    ensures text { line.new.items ≡ line.old.items ++ marked (word.now ∷ decimal person ∷ []) }
    ensures len { array_vec_len line.new ≤ array_vec_len line.old + length word.now + 12 }
{
    put_field(line, word);
    put_number_field(line, person.number());
}

// The same of a command about a vacancy.
fn put_about_vac(line: &mut LineText, word: &[u8], vac: VacNo)
    requires { array_vec_len line.old + length word.now + 12 ≤ 512 }
    ensures text { line.new.items ≡ line.old.items ++ marked (word.now ∷ decimal vac ∷ []) }
    ensures len { array_vec_len line.new ≤ array_vec_len line.old + length word.now + 12 }
{
    put_field(line, word);
    put_number_field(line, vac.number());
}

// The same of a command about a vacancy and a person.
fn put_about_offer(line: &mut LineText, word: &[u8], vac: VacNo, person: PersonNo)
    requires { array_vec_len line.old + length word.now + 23 ≤ 512 }
    ensures text { line.new.items
        ≡ line.old.items ++ marked (word.now ∷ decimal vac ∷ decimal person ∷ []) }
    ensures len { array_vec_len line.new ≤ array_vec_len line.old + length word.now + 23 }
{
    put_about_vac(line, word, vac);
    put_number_field(line, person.number());
}

// Adds each field of the event behind a comma.
fn put_event(line: &mut LineText, last: &mut LastMinute, event: &Event)
    requires { array_vec_len line.old + 60 ≤ 512 }
    ensures text { line.new.items ≡ line.old.items ++ marked (event_fields event.now) }
    ensures len { array_vec_len line.new ≤ array_vec_len line.old + 60 }
{
    match event {
        Event::Ride(at) => put_moment(line, last, b"ride", *at),
        Event::Duty(at) => put_moment(line, last, b"duty", *at),
        Event::Interim(at, kind, place) => {
            put_moment(line, last, b"interim", *at);
            put_field(line, kind_text(kind));
            put_field(line, place.text());
        }
        Event::Resume(at) => put_moment(line, last, b"resume", *at),
        Event::Relieve(at) => put_moment(line, last, b"relieve", *at),
        Event::RideHome(at) => put_moment(line, last, b"ridehome", *at),
        Event::Final(at, place) => {
            put_moment(line, last, b"final", *at);
            put_field(line, place.text());
        }
        Event::Other(span, place) => {
            put_field(line, b"other");
            put_field(line, &span.from().write());
            put_field(line, &span.to().write());
            put_field(line, place.text());
        }
    }
}

// Adds the word of an event, and its minute, each behind a comma.
fn put_moment(line: &mut LineText, last: &mut LastMinute, word: &[u8], at: Minute)
    requires { array_vec_len line.old + length word.now + 18 ≤ 512 }
    ensures text { line.new.items ≡ line.old.items ++ marked (word.now ∷ minute_text at ∷ []) }
    ensures len { array_vec_len line.new ≡ array_vec_len line.old + length word.now + 18 }
{
    put_field(line, word);
    put_field(line, &last.write(at));
}

/// The letter of an interim's kind.
pub(crate) fn kind_text(kind: &Kind) -> &'static [u8]
    ensures text { result.now ≡ kind_text kind.now }
    ensures len { length result.now ≡ 1 }
{
    match kind {
        Kind::D => b"D",
        Kind::P => b"P",
        Kind::O => b"O",
    }
}

// The word of a job's record.
fn job_word(relief: bool) -> &'static [u8]
    ensures text { result.now ≡ job_word relief }
    ensures len { length result.now ≤ 7 }
{
    if relief { b"relief" } else { b"vacancy" }
}

// Adds each field of the job behind a comma.
fn put_job(line: &mut LineText, job: &Job)
    requires { array_vec_len line.old + 330 ≤ 512 }
    ensures text { line.new.items ≡ line.old.items ++ marked (job_fields job.now) }
    ensures len { array_vec_len line.new ≤ array_vec_len line.old + 330 }
{
    put_number_field(line, job.vac().number());
    put_field(line, job.craft().text());
    put_field(line, job.quals().write().as_slice());
    put_field(line, job.place().text());
    put_field(line, &job.report().write());
    put_number_field(line, u32::from(job.duty()));
    put_number_field(line, u32::from(job.limbo()));
    put_field(line, job.chain().write().as_slice());
}
