//! Commands about a vacancy and a person, read from the fields behind their word.
ghost use Rattle.std.specs.Prelude.{◌≡◌, ◌⊎◌, IfSome, map};
ghost use Rattle.desk_model.specs.declared.command.Cmd.{Cmd as CmdValue};
ghost use Rattle.command_parser.specs.Spelled.{Spells};

use crate::field::{read_person, read_vac};
use crate::word::Word;
use desk_model::Cmd;

/// The command of `offer`, `accept`, `decline`, `noanswer`, `withdraw` or `explain`: a vacancy and a person.
pub(crate) fn read_about_offer(word: Word, about: &[&[u8]]) -> Option<Cmd>
    requires { (word ≡ Word.Offer) ⊎ (word ≡ Word.Accept) ⊎ (word ≡ Word.Decline)
        ⊎ (word ≡ Word.NoAnswer) ⊎ (word ≡ Word.Withdraw) ⊎ (word ≡ Word.Explain) }
    ensures some { IfSome result (Spells word (map (λ field. field.now) about.now)) }
    ensures only { (cmd : CmdValue) → Spells word (map (λ field. field.now) about.now) cmd
        → result ≡ Some cmd }
{
    let [vac, person] = about else {
        return None;
    };
    let vac = read_vac(vac)?;
    let person = read_person(person)?;
    match word {
        Word::Offer => Some(Cmd::Offer { vac, person }),
        Word::Accept => Some(Cmd::Accept { vac, person }),
        Word::Decline => Some(Cmd::Decline { vac, person }),
        Word::NoAnswer => Some(Cmd::NoAnswer { vac, person }),
        Word::Withdraw => Some(Cmd::Withdraw { vac, person }),
        Word::Explain => Some(Cmd::Explain { vac, person }),
        _ => None,
    }
}
