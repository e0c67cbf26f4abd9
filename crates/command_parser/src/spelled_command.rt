//! Commands about a board or a vacancy, read from the fields behind their word.
ghost use Rattle.std.specs.Prelude.{◌≡◌, ◌⊎◌, ◌∷◌, IfSome, map};
ghost use Rattle.desk_model.specs.declared.command.Cmd.{Cmd as CmdValue};
ghost use Rattle.desk_model.specs.texts.StatedTexts.{job_word};
ghost use Rattle.command_parser.specs.Spelled.{Spells, SpellsCommand};

use crate::field::{read_count, read_extra, read_position, read_vac};
use crate::word::Word;
use desk_base::Code;
use desk_model::{Chain, Cmd, Job};
use qualifications::{Craft, Quals};
use record_rows::LastMinute;

/// Board, sort and place.
pub(crate) fn read_board(about: &[&[u8]]) -> Option<Cmd>
    ensures some { IfSome result (Spells Word.Board (map (λ field. field.now) about.now)) }
    ensures only { (cmd : CmdValue) → Spells Word.Board (map (λ field. field.now) about.now) cmd
        → result ≡ Some cmd }
{
    let [board, sort, place] = about else {
        return None;
    };
    Some(Cmd::Board {
        board: Code::read(board)?,
        extra: read_extra(sort)?,
        place: Code::read(place)?,
    })
}

/// Vacancy, craft, qualifications, place, report, duty, limbo and chain, of a relief vacancy or of another. `last` is the minute that was
/// read last: it only spares work.
pub(crate) fn read_vacancy(last: &LastMinute, about: &[&[u8]], relief: bool) -> Option<Cmd>
    ensures some { IfSome result (SpellsCommand
        (job_word relief ∷ map (λ field. field.now) about.now)) }
    ensures only { (cmd : CmdValue)
        → SpellsCommand (job_word relief ∷ map (λ field. field.now) about.now) cmd
        → result ≡ Some cmd }
{
    let [vac, craft, quals, place, report, duty, limbo, chain] = about else {
        return None;
    };
    let job = Job::new(
        read_vac(vac)?,
        Craft::read(craft)?,
        Quals::read(quals)?,
        Code::read(place)?,
        last.read_beside(report)?,
        read_count(duty)?,
        read_count(limbo)?,
        Chain::read(chain)?,
        relief,
    )?;
    Some(Cmd::Vacancy(job))
}

/// The command of `next`, `annul` or `vac`: a vacancy.
pub(crate) fn read_about_vac(word: Word, about: &[&[u8]]) -> Option<Cmd>
    requires { (word ≡ Word.Next) ⊎ (word ≡ Word.Annul) ⊎ (word ≡ Word.Vac) }
    ensures some { IfSome result (Spells word (map (λ field. field.now) about.now)) }
    ensures only { (cmd : CmdValue) → Spells word (map (λ field. field.now) about.now) cmd
        → result ≡ Some cmd }
{
    let [vac] = about else {
        return None;
    };
    let vac = read_vac(vac)?;
    match word {
        Word::Next => Some(Cmd::Next { vac }),
        Word::Annul => Some(Cmd::Annul { vac }),
        Word::Vac => Some(Cmd::Vac { vac }),
        _ => None,
    }
}

/// Board and position.
pub(crate) fn read_at(about: &[&[u8]]) -> Option<Cmd>
    ensures some { IfSome result (Spells Word.At (map (λ field. field.now) about.now)) }
    ensures only { (cmd : CmdValue) → Spells Word.At (map (λ field. field.now) about.now) cmd
        → result ≡ Some cmd }
{
    let [board, place] = about else {
        return None;
    };
    Some(Cmd::At {
        board: Code::read(board)?,
        place: read_position(place)?,
    })
}
