//! Commands, read from the fields of a record, and the law that a record states one.
ghost use Rattle.std.specs.Prelude.{◌≡◌, IfSome, IfOk, IfErr, IsTrue, false, map, ℕ, List};
ghost use Rattle.desk_model.specs.declared.command.Cmd.{Cmd as CmdValue};
ghost use Rattle.desk_model.specs.statements.Statement.{StatedValue};
ghost use Rattle.command_parser.specs.Spelled.{SpellsCommand, StatesCommand};
ghost use Rattle.command_parser.specs.RecordForms.{IsWrongAt};

use crate::first_wrong::wrong_field;
use crate::spelled_command::{read_about_vac, read_at, read_board, read_vacancy};
use crate::spelled_offer::read_about_offer;
use crate::spelled_person::{
    read_about_event, read_about_person, read_enrol, read_hours, read_listing, read_qualify,
};
use crate::word::Word;
use desk_model::{Cmd, Stated};
use record_rows::LastMinute;

/// The command that a record's fields state, and the minute at which it was stated. Where they state none it is the number,
/// from 1, of the first field that is missing, one too many, or none that may stand there behind the fields before it.
///
/// The first field is the minute, the second the command's word, and behind it stands what the command is about:
///
/// | Word | Fields behind it |
/// |---|---|
/// | `enrol` | person, craft, home, qualifications |
/// | `board` | board, `pool` or `extra`, place |
/// | `list`, `unlist` | person, board |
/// | `off`, `on`, `drop` | person |
/// | `qualify` | person, qualifications |
/// | `past`, `event` | person, and an event |
/// | `vacancy`, `relief` | vacancy, craft, qualifications, place, report, duty, limbo, chain |
/// | `next`, `annul`, `vac` | vacancy |
/// | `offer`, `accept`, `decline`, `noanswer`, `withdraw`, `explain` | vacancy, person |
/// | `hours` | person, month |
/// | `at` | board, position |
pub fn read_record(last: &mut LastMinute, fields: &[&[u8]]) -> Result<Stated, u8>
    ensures some { IfOk result (StatesCommand (map (λ field. field.now) fields.now)) }
    ensures only { (s : StatedValue) → StatesCommand (map (λ field. field.now) fields.now) s
        → result ≡ Ok s }
    ensures wrong { IfErr result (IsWrongAt (map (λ field. field.now) fields.now)) }
{
    match read_stated(last, fields) {
        Some(stated) => Ok(stated),
        None => Err(wrong_field(fields)),
    }
}

/// The command that a record's fields state, and the minute at which it was stated; `None` where they state none.
pub(crate) fn read_stated(last: &mut LastMinute, fields: &[&[u8]]) -> Option<Stated>
    ensures some { IfSome result (StatesCommand (map (λ field. field.now) fields.now)) }
    ensures only { (s : StatedValue) → StatesCommand (map (λ field. field.now) fields.now) s
        → result ≡ Some s }
{
    let [minute, command @ ..] = fields else {
        return None;
    };
    let minute = last.read(minute)?;
    match read_cmd(last, command) {
        Some(cmd) => Stated::new(minute, cmd),
        None => None,
    }
}

/// Puts what a record's fields state in place of what `stated` has, which spares its being moved about; false where they state nothing, and
/// then it stays.
pub fn put_stated(stated: &mut Stated, last: &mut LastMinute, fields: &[&[u8]]) -> bool
    ensures some { IsTrue result → StatesCommand (map (λ field. field.now) fields.now) stated.new }
    ensures only { (s : StatedValue) → StatesCommand (map (λ field. field.now) fields.now) s → IsTrue result }
    ensures same { result ≡ false → stated.new ≡ stated.old }
{
    let [minute, command @ ..] = fields else {
        return false;
    };
    let Some(minute) = last.read(minute) else {
        return false;
    };
    match &read_cmd(last, command) {
        Some(cmd) => stated.put(minute, cmd),
        None => false,
    }
}

// The command of its word and the fields behind it.
fn read_cmd(last: &LastMinute, fields: &[&[u8]]) -> Option<Cmd>
    ensures some { IfSome result (SpellsCommand (map (λ field. field.now) fields.now)) }
    ensures only { (cmd : CmdValue) → SpellsCommand (map (λ field. field.now) fields.now) cmd
        → result ≡ Some cmd }
{
    let [word, about @ ..] = fields else {
        return None;
    };
    let word = Word::read(word)?;
    match word {
        Word::Enrol => read_enrol(about),
        Word::Board => read_board(about),
        Word::List | Word::Unlist => read_listing(word, about),
        Word::Off | Word::On | Word::Drop => read_about_person(word, about),
        Word::Qualify => read_qualify(about),
        Word::Past | Word::Event => read_about_event(last, word, about),
        Word::Vacancy => read_vacancy(last, about, false),
        Word::Relief => read_vacancy(last, about, true),
        Word::Next | Word::Annul | Word::Vac => read_about_vac(word, about),
        Word::Offer
        | Word::Accept
        | Word::Decline
        | Word::NoAnswer
        | Word::Withdraw
        | Word::Explain => read_about_offer(word, about),
        Word::Hours => read_hours(about),
        Word::At => read_at(about),
    }
}

/// A record states one command at most, and one minute for it. It does nothing: its clause is the law.
pub fn a_record_states_one_command()
    ensures { (fields : List (List ℕ)) (s t : StatedValue) → StatesCommand fields s
        → StatesCommand fields t → s ≡ t }
{}
