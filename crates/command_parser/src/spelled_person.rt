//! Commands about a person, read from the fields behind their word.
ghost use Rattle.std.specs.Prelude.{◌≡◌, ◌⊎◌, IfSome, map};
ghost use Rattle.desk_model.specs.declared.command.Cmd.{Cmd as CmdValue};
ghost use Rattle.command_parser.specs.Spelled.{Spells};

use crate::field::read_person;
use crate::spelled_event::read_event;
use crate::word::Word;
use desk_base::{Code, Month};
use desk_model::Cmd;
use qualifications::{Craft, Quals};
use record_rows::LastMinute;

/// Person, craft, home and qualifications.
pub(crate) fn read_enrol(about: &[&[u8]]) -> Option<Cmd>
    ensures some { IfSome result (Spells Word.Enrol (map (λ field. field.now) about.now)) }
    ensures only { (cmd : CmdValue) → Spells Word.Enrol (map (λ field. field.now) about.now) cmd
        → result ≡ Some cmd }
{
    let [person, craft, home, quals] = about else {
        return None;
    };
    Some(Cmd::Enrol {
        person: read_person(person)?,
        craft: Craft::read(craft)?,
        home: Code::read(home)?,
        quals: Quals::read(quals)?,
    })
}

/// The command of `list` or `unlist`: person and board.
pub(crate) fn read_listing(word: Word, about: &[&[u8]]) -> Option<Cmd>
    requires { (word ≡ Word.List) ⊎ (word ≡ Word.Unlist) }
    ensures some { IfSome result (Spells word (map (λ field. field.now) about.now)) }
    ensures only { (cmd : CmdValue) → Spells word (map (λ field. field.now) about.now) cmd
        → result ≡ Some cmd }
{
    let [person, board] = about else {
        return None;
    };
    let person = read_person(person)?;
    let board = Code::read(board)?;
    match word {
        Word::List => Some(Cmd::List { person, board }),
        Word::Unlist => Some(Cmd::Unlist { person, board }),
        _ => None,
    }
}

/// The command of `off`, `on` or `drop`: a person.
pub(crate) fn read_about_person(word: Word, about: &[&[u8]]) -> Option<Cmd>
    requires { (word ≡ Word.Off) ⊎ (word ≡ Word.On) ⊎ (word ≡ Word.Drop) }
    ensures some { IfSome result (Spells word (map (λ field. field.now) about.now)) }
    ensures only { (cmd : CmdValue) → Spells word (map (λ field. field.now) about.now) cmd
        → result ≡ Some cmd }
{
    let [person] = about else {
        return None;
    };
    let person = read_person(person)?;
    match word {
        Word::Off => Some(Cmd::MarkOff { person }),
        Word::On => Some(Cmd::MarkOn { person }),
        Word::Drop => Some(Cmd::Drop { person }),
        _ => None,
    }
}

/// Person and qualifications.
pub(crate) fn read_qualify(about: &[&[u8]]) -> Option<Cmd>
    ensures some { IfSome result (Spells Word.Qualify (map (λ field. field.now) about.now)) }
    ensures only { (cmd : CmdValue) → Spells Word.Qualify (map (λ field. field.now) about.now) cmd
        → result ≡ Some cmd }
{
    let [person, quals] = about else {
        return None;
    };
    Some(Cmd::Qualify {
        person: read_person(person)?,
        quals: Quals::read(quals)?,
    })
}

/// The command of `past` or `event`: a person, and an event. `last` is the minute that was read last: it only spares work.
pub(crate) fn read_about_event(last: &LastMinute, word: Word, about: &[&[u8]]) -> Option<Cmd>
    requires { (word ≡ Word.Past) ⊎ (word ≡ Word.Event) }
    ensures some { IfSome result (Spells word (map (λ field. field.now) about.now)) }
    ensures only { (cmd : CmdValue) → Spells word (map (λ field. field.now) about.now) cmd
        → result ≡ Some cmd }
{
    let [person, event @ ..] = about else {
        return None;
    };
    let person = read_person(person)?;
    let event = read_event(last, event)?;
    match word {
        Word::Past => Some(Cmd::Past { person, event }),
        Word::Event => Some(Cmd::Happened { person, event }),
        _ => None,
    }
}

/// Person and month.
pub(crate) fn read_hours(about: &[&[u8]]) -> Option<Cmd>
    ensures some { IfSome result (Spells Word.Hours (map (λ field. field.now) about.now)) }
    ensures only { (cmd : CmdValue) → Spells Word.Hours (map (λ field. field.now) about.now) cmd
        → result ≡ Some cmd }
{
    let [person, month] = about else {
        return None;
    };
    Some(Cmd::Hours {
        person: read_person(person)?,
        month: Month::read(month)?,
    })
}
