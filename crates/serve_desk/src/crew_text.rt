//! The texts that answer crew calls.
ghost use Rattle.std.specs.Prelude.{◌≡◌, ◌≤◌, ◌+◌, ◌++◌};
ghost use Rattle.arrayvec.specs.ArrayVec.{array_vec_len};
ghost use Rattle.serve_desk.specs.Crews.{crew_text, outcome_text, too_few};

use crew_call::CrewOutcome;
use itoa::Buffer;
use line_writer::{LineText, put, put_byte};

/// The text for what a crew call came to: the persons to whom the vacancies are offered; or the vacancy that is not offered; or the one whose
/// offer was closed by another.
pub(crate) fn write_crew(told: &CrewOutcome) -> LineText
    ensures { result.items ≡ crew_text told.now }
{
    let mut text = LineText::new();
    put(&mut text, b"crew ");
    put_outcome(&mut text, told);
    put_byte(&mut text, b'\n');
    text
}

// Adds what it came to, 32 bytes at most.
fn put_outcome(text: &mut LineText, told: &CrewOutcome)
    requires { array_vec_len text.old + 32 ≤ 512 }
    ensures text { text.new.items ≡ text.old.items ++ outcome_text told.now }
    ensures len { array_vec_len text.new ≤ array_vec_len text.old + 32 }
{
    match told {
        CrewOutcome::Both { first, second } => {
            put(text, b"both ");
            put(text, Buffer::new().format(first.number()).as_bytes());
            put_byte(text, b' ');
            put(text, Buffer::new().format(second.number()).as_bytes());
        }
        CrewOutcome::Neither { vac, .. } => {
            put(text, b"neither ");
            put(text, Buffer::new().format(vac.number()).as_bytes());
        }
        CrewOutcome::Between { vac, .. } => {
            put(text, b"between ");
            put(text, Buffer::new().format(vac.number()).as_bytes());
        }
    }
}

/// The text for a crew call of a seat that has only so many calls left.
pub(crate) fn write_too_few(left: u32) -> LineText
    ensures { result.items ≡ too_few left }
{
    let mut text = LineText::new();
    put(&mut text, b"crew too few ");
    put(&mut text, Buffer::new().format(left).as_bytes());
    put_byte(&mut text, b'\n');
    text
}
