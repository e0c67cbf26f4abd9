//! Replies, read from their texts.
ghost use Rattle.std.specs.Prelude.{◌≡◌, IfSome};
ghost use Rattle.desk_model.specs.declared.reply.Reply.{Reply as ReplyValue};
ghost use Rattle.desk_text.specs.declared.reply_head.ReplyHead.TheVariants as head;
ghost use Rattle.desk_text.specs.SpelledReply.{SpellsReply, TellsReply, HasNoReplyHead};

use crate::cut::cut_near;
use crate::reply_head::ReplyHead;
use crate::spelled_bar::read_bar;
use crate::spelled_part::{read_board_position, read_late, read_numbers};
use crate::spelled_stage::{read_fault, read_state};
use command_parser::{read_count, read_person, read_vac};
use desk_base::{Code, Minute};
use desk_model::Reply;

/// The reply of a text, each of whose values is in its range; `None` where the text is no such reply's.
pub(crate) fn read_reply(text: &[u8]) -> Option<Reply>
    ensures some { IfSome result (SpellsReply text.now) }
    ensures only { (reply : ReplyValue) → SpellsReply text.now reply → result ≡ Some reply }
{
    // Most replies are this one, so it is looked for first.
    if text == b"done".as_slice() {
        return Some(Reply::Done);
    }
    if let Some((head, kept)) = ReplyHead::split(text) {
        return read_kept(head, kept);
    }
    match read_fault(text) {
        Some(fault) => Some(Reply::Event(fault)),
        None => read_plain(text),
    }
}

// A reply that keeps something, behind its head.
fn read_kept(head: ReplyHead, kept: &[u8]) -> Option<Reply>
    ensures some { IfSome result (TellsReply head kept.now) }
    ensures only { (reply : ReplyValue) → TellsReply head kept.now reply → result ≡ Some reply }
{
    match head {
        ReplyHead::Offered => read_offered(kept),
        ReplyHead::Clear => read_clear(kept),
        ReplyHead::Hours => read_hours(kept),
        ReplyHead::Unfilled => Some(Reply::Unfilled {
            listed: read_count(kept)?,
        }),
        ReplyHead::NoOne => Some(Reply::NoOne {
            length: read_count(kept)?,
        }),
        ReplyHead::Seen => Some(Reply::Seen(read_person(kept)?)),
        ReplyHead::RunAround => Some(Reply::RunAround(read_person(kept)?)),
        ReplyHead::OfferOpen => Some(Reply::OfferOpen(read_person(kept)?)),
        ReplyHead::Frozen => Some(Reply::Frozen(read_vac(kept)?)),
        ReplyHead::UnknownBoard => Some(Reply::UnknownBoard(Code::read(kept)?)),
        ReplyHead::BadChain => Some(Reply::BadChain(Code::read(kept)?)),
        ReplyHead::EventAhead => Some(Reply::EventAhead(Minute::read(kept)?)),
        ReplyHead::ReportPast => Some(Reply::ReportPast(Minute::read(kept)?)),
        ReplyHead::Lapsed => Some(Reply::Lapsed(read_late(kept)?)),
        ReplyHead::Early => Some(Reply::EarlyNoAnswer(read_late(kept)?)),
        ReplyHead::State => Some(Reply::State(read_state(kept)?)),
        ReplyHead::Closed => Some(Reply::Closed(read_state(kept)?)),
        ReplyHead::Denied => Some(Reply::Denied(read_bar(kept)?)),
    }
}

// To whom a vacancy is offered, and the board and the position where that person stands.
fn read_offered(kept: &[u8]) -> Option<Reply>
    ensures some { IfSome result (TellsReply head.Offered kept.now) }
    ensures only { (reply : ReplyValue) → TellsReply head.Offered kept.now reply
        → result ≡ Some reply }
{
    let (person, place) = cut_near(kept, b' ')?;
    let person = read_person(person)?;
    let (board, position) = read_board_position(place)?;
    Some(Reply::Offered {
        person,
        board,
        position,
    })
}

// The board and the position where a person stands whom nothing bars.
fn read_clear(kept: &[u8]) -> Option<Reply>
    ensures some { IfSome result (TellsReply head.Clear kept.now) }
    ensures only { (reply : ReplyValue) → TellsReply head.Clear kept.now reply
        → result ≡ Some reply }
{
    let (board, position) = read_board_position(kept)?;
    Some(Reply::Clear { board, position })
}

// The minutes used of a month, and those capped.
fn read_hours(kept: &[u8]) -> Option<Reply>
    ensures some { IfSome result (TellsReply head.Hours kept.now) }
    ensures only { (reply : ReplyValue) → TellsReply head.Hours kept.now reply
        → result ≡ Some reply }
{
    let (used, capped) = read_numbers(kept)?;
    Some(Reply::Hours { used, capped })
}

// A reply that keeps nothing.
fn read_plain(text: &[u8]) -> Option<Reply>
    ensures some { IfSome result (SpellsReply text.now) }
    ensures only { HasNoReplyHead text.now → (reply : ReplyValue) → SpellsReply text.now reply
        → result ≡ Some reply }
{
    if text == b"done".as_slice() {
        Some(Reply::Done)
    } else if text == b"not listed".as_slice() {
        Some(Reply::NotListed)
    } else if text == b"outside window".as_slice() {
        Some(Reply::OutsideWindow)
    } else if text == b"unknown person".as_slice() {
        Some(Reply::UnknownPerson)
    } else if text == b"unknown vacancy".as_slice() {
        Some(Reply::UnknownVacancy)
    } else if text == b"used".as_slice() {
        Some(Reply::Used)
    } else if text == b"already".as_slice() {
        Some(Reply::Already)
    } else if text == b"past closed".as_slice() {
        Some(Reply::PastClosed)
    } else if text == b"plan too long 21103(a)(2)".as_slice() {
        Some(Reply::PlanTooLong)
    } else if text == b"plan too long 21103(d)".as_slice() {
        Some(Reply::ReliefTooLong)
    } else if text == b"not in edition 1".as_slice() {
        Some(Reply::OtherEdition)
    } else if text == b"no offer".as_slice() {
        Some(Reply::NoOffer)
    } else if text == b"not assigned".as_slice() {
        Some(Reply::NotAssigned)
    } else if text == b"persons full".as_slice() {
        Some(Reply::PersonsFull)
    } else if text == b"boards full".as_slice() {
        Some(Reply::BoardsFull)
    } else if text == b"lists full".as_slice() {
        Some(Reply::ListsFull)
    } else if text == b"members full".as_slice() {
        Some(Reply::MembersFull)
    } else if text == b"vacancies full".as_slice() {
        Some(Reply::VacanciesFull)
    } else {
        None
    }
}
