//! A journal, cut from the commands that it goes on with.
ghost use Rattle.std.specs.Prelude.{◌≡◌, ◌≤◌, ◌∷◌, None, false, length, IfSome, ◌++◌, ℕ, List, []};
ghost use Rattle.crewdesk_main.specs.Parts.{is_plus, journal_of, more_of};
ghost use Rattle.desk_model.specs.histories.History.{History};
ghost use Rattle.desk_model.specs.texts.Journal.{journal};
ghost use Rattle.desk_model.specs.histories.Legal.{IsLegal};

use desk_model::a_legal_history_fits;
use desk_text::each_line_ends_once;

/// The part of a text that is a journal, and the part behind it with commands. They are parted by the first line that is just a
/// plus: where there is none, all is the journal.
pub fn cut_at_plus(text: &[u8]) -> (&[u8], &[u8])
    ensures journal { result.0.now ≡ journal_of text.now }
    ensures more { result.1.now ≡ more_of text.now }
    ensures within { length result.0.now ≤ length text.now }
{
    let mut begins = true;
    for at in 0..text.len() {
        if begins {
            if let Some(more) = behind_plus(&text[at..]) {
                return (&text[..at], more);
            }
        }
        begins = text[at] == b'\n';
    }
    (text, &[])
}

// What stands behind the plus and the line feed that a text begins with; `None` where it doesn't.
fn behind_plus(text: &[u8]) -> Option<&[u8]>
    ensures some { IfSome result (λ more. text.now ≡ 43 ∷ 10 ∷ more.now) }
    ensures none { result ≡ None → is_plus text.now ≡ false }
{
    match text {
        [b'+', b'\n', more @ ..] => Some(more),
        _ => None,
    }
}

/// The journal of a legal history is the journal part of a text: where nothing is behind it, and where a line that is just a plus
/// is, and commands, which are the other part then. It only names the laws that it rests on: its clauses are the law.
pub fn a_legal_journal_is_the_journal_part()
    ensures alone { (h : History) → IsLegal h → journal_of (journal h) ≡ journal h }
    ensures no_more { (h : History) → IsLegal h → more_of (journal h) ≡ [] }
    ensures behind { (h : History) (more : List ℕ) → IsLegal h → journal_of (journal h ++ 43 ∷ 10 ∷ more) ≡ journal h }
    ensures more { (h : History) (more : List ℕ) → IsLegal h → more_of (journal h ++ 43 ∷ 10 ∷ more) ≡ more }
{
    each_line_ends_once();
    a_legal_history_fits();
}
