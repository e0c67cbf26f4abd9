//! Replies as texts.
ghost use Rattle.std.specs.Prelude.{◌≡◌, ◌≤◌, ◌+◌, ◌++◌, length, decimal};
ghost use Rattle.arrayvec.specs.ArrayVec.{array_vec_len};
ghost use Rattle.desk_model.specs.texts.ReplyTexts.{state_text, stage_text, fault_text, reply_text};

use crate::bar_line::{put_bar, put_late};
use crate::line_text::{LineText, put, put_byte, put_number};
use crate::stated_line::kind_text;
use desk_model::{Reply, VacState};
use duty_events::{EventFault, Stage};

/// Adds the text of a reply, 48 bytes at most.
pub(crate) fn put_reply(line: &mut LineText, reply: &Reply)
    requires { array_vec_len line.old + 48 ≤ 512 }
    ensures text { line.new.items ≡ line.old.items ++ reply_text reply.now }
    ensures len { array_vec_len line.new ≤ array_vec_len line.old + 48 }
{
    match reply {
        Reply::Done => put(line, b"done"),
        Reply::OutsideWindow => put(line, b"outside window"),
        Reply::PastClosed => put(line, b"past closed"),
        Reply::Used => put(line, b"used"),
        Reply::Already => put(line, b"already"),
        Reply::PersonsFull => put(line, b"persons full"),
        Reply::BoardsFull => put(line, b"boards full"),
        Reply::UnknownPerson => put(line, b"unknown person"),
        Reply::ListsFull => put(line, b"lists full"),
        Reply::MembersFull => put(line, b"members full"),
        Reply::VacanciesFull => put(line, b"vacancies full"),
        Reply::PlanTooLong => put(line, b"plan too long 21103(a)(2)"),
        Reply::ReliefTooLong => put(line, b"plan too long 21103(d)"),
        Reply::OtherEdition => put(line, b"not in edition 1"),
        Reply::UnknownVacancy => put(line, b"unknown vacancy"),
        Reply::NotListed => put(line, b"not listed"),
        Reply::NoOffer => put(line, b"no offer"),
        Reply::NotAssigned => put(line, b"not assigned"),
        Reply::Denied(bar) => {
            put(line, b"denied ");
            put_bar(line, bar);
        }
        Reply::Clear { board, position } => {
            put(line, b"clear ");
            put(line, board.text());
            put_byte(line, b' ');
            put_number(line, u32::from(*position));
        }
        Reply::Unfilled { listed } => put_numbered(line, b"unfilled ", u32::from(*listed)),
        Reply::Hours { used, capped } => {
            put(line, b"hours ");
            put_number(line, *used);
            put_byte(line, b' ');
            put_number(line, *capped);
        }
        Reply::Seen(person) => put_numbered(line, b"seen ", person.number()),
        Reply::NoOne { length } => put_numbered(line, b"no one ", u32::from(*length)),
        Reply::State(state) => {
            put(line, b"state ");
            put_state(line, state);
        }
        Reply::RunAround(person) => put_numbered(line, b"run around ", person.number()),
        Reply::Frozen(vac) => put_numbered(line, b"frozen ", vac.number()),
        Reply::EventAhead(moment) => put_named(line, b"event ahead ", &moment.write()),
        Reply::Event(fault) => put_fault(line, fault),
        Reply::UnknownBoard(board) => put_named(line, b"unknown board ", board.text()),
        Reply::BadChain(board) => put_named(line, b"bad chain ", board.text()),
        Reply::OfferOpen(person) => put_numbered(line, b"offer open ", person.number()),
        Reply::Closed(state) => {
            put(line, b"closed ");
            put_state(line, state);
        }
        Reply::ReportPast(report) => put_named(line, b"report past ", &report.write()),
        Reply::Lapsed(report) => {
            put(line, b"lapsed ");
            put_late(line, *report);
        }
        Reply::EarlyNoAnswer(deadline) => {
            put(line, b"early ");
            put_late(line, *deadline);
        }
        Reply::Offered {
            person,
            board,
            position,
        } => {
            put(line, b"offered ");
            put_number(line, person.number());
            put_byte(line, b' ');
            put(line, board.text());
            put_byte(line, b' ');
            put_number(line, u32::from(*position));
        }
    }
}

// Adds words and a number in decimal behind them, 10 digits at most.
fn put_numbered(line: &mut LineText, words: &[u8], number: u32)
    requires { array_vec_len line.old + length words.now + 10 ≤ 512 }
    ensures text { line.new.items ≡ line.old.items ++ (words.now ++ decimal number) }
    ensures len { array_vec_len line.new ≤ array_vec_len line.old + length words.now + 10 }
{
    put(line, words);
    put_number(line, number);
}

// Adds words and a text behind them.
fn put_named(line: &mut LineText, words: &[u8], text: &[u8])
    requires { array_vec_len line.old + length words.now + length text.now ≤ 512 }
    ensures text { line.new.items ≡ line.old.items ++ (words.now ++ text.now) }
    ensures len { array_vec_len line.new ≡ array_vec_len line.old + length words.now + length text.now }
{
    put(line, words);
    put(line, text);
}

// Why an event may not follow those before it.
fn put_fault(line: &mut LineText, fault: &EventFault)
    requires { array_vec_len line.old + 48 ≤ 512 }
    ensures text { line.new.items ≡ line.old.items ++ fault_text fault.now }
    ensures len { array_vec_len line.new ≤ array_vec_len line.old + 48 }
{
    match fault {
        EventFault::WrongStage(stage) => {
            put(line, b"wrong stage ");
            put_stage(line, stage);
        }
        EventFault::Behind(last) => put_named(line, b"behind ", &last.write()),
        EventFault::InterimTooLong(minutes) => put_numbered(line, b"interim too long ", *minutes),
        EventFault::OtherPlace(place) => put_named(line, b"other place ", place.text()),
    }
}

// Where a person stands in a tour of duty.
fn put_stage(line: &mut LineText, stage: &Stage)
    requires { array_vec_len line.old + 36 ≤ 512 }
    ensures text { line.new.items ≡ line.old.items ++ stage_text stage.now }
    ensures len { array_vec_len line.new ≤ array_vec_len line.old + 36 }
{
    match stage {
        Stage::Off => put(line, b"off"),
        Stage::Riding => put(line, b"riding"),
        Stage::Duty => put(line, b"duty"),
        Stage::Waiting => put(line, b"waiting"),
        Stage::RidingHome => put(line, b"riding home"),
        Stage::Interim { kind, since, place } => {
            put(line, b"interim ");
            put(line, kind_text(kind));
            put_byte(line, b' ');
            put(line, &since.write());
            put_byte(line, b' ');
            put(line, place.text());
        }
    }
}

fn put_state(line: &mut LineText, state: &VacState)
    requires { array_vec_len line.old + 18 ≤ 512 }
    ensures text { line.new.items ≡ line.old.items ++ state_text state.now }
    ensures len { array_vec_len line.new ≤ array_vec_len line.old + 18 }
{
    match state {
        VacState::Vacant => put(line, b"vacant"),
        VacState::Annulled => put(line, b"annulled"),
        VacState::OnOffer(person) => put_numbered(line, b"offered ", person.number()),
        VacState::Taken(person) => put_numbered(line, b"taken ", person.number()),
        VacState::Begun(person) => put_numbered(line, b"begun ", person.number()),
    }
}
