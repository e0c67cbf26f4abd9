//! The lines that tell a verdict.
ghost use Rattle.std.specs.Prelude.{◌≡◌, ◌++◌, IfOk};
ghost use Rattle.line_writer.specs.Tally.{count_line};
ghost use Rattle.audit_desk.specs.VerdictText.{told_outcome, verdict_text};

use crate::{Outcome, Verdict};
use desk_base::NoMemory;
use itoa::Buffer;
use line_writer::write_outcome;
use std::alloc::Global;

/// The lines that tell a verdict: `legal n`, `unreadable n`, or the three lines `wrong n`, `written MOMENT|REPLY` and
/// `right MOMENT|REPLY`, where n is how many entries the journal has, or the line's number. There are none for `NoOpening` and
/// `NoMemory`.
pub fn write_verdict(alloc: Global, verdict: &Verdict) -> Result<Vec<u8>, NoMemory>
    ensures { IfOk result (λ text. text.items ≡ verdict_text verdict.now) }
{
    let mut text = Vec::new(alloc);
    match verdict {
        Verdict::Legal(count) => put_count(&mut text, b"legal", *count)?,
        Verdict::Wrong {
            line,
            written,
            right,
        } => {
            put_count(&mut text, b"wrong", *line)?;
            put_outcome(&mut text, b"written ", written)?;
            put_outcome(&mut text, b"right ", right)?;
        }
        Verdict::Unreadable(line) => put_count(&mut text, b"unreadable", *line)?,
        Verdict::NoOpening | Verdict::NoMemory => {}
    }
    Ok(text)
}

// Adds a line with a word and a number.
fn put_count(text: &mut Vec<u8>, word: &[u8], number: u32) -> Result<(), NoMemory>
    ensures { IfOk result (λ _. text.new.items ≡ text.old.items ++ count_line word.now number) }
{
    text.extend_from_slice(word)?;
    text.extend_from_slice(b" ")?;
    text.extend_from_slice(Buffer::new().format(number).as_bytes())?;
    text.extend_from_slice(b"\n")?;
    Ok(())
}

// Adds a line with a word and an outcome.
fn put_outcome(text: &mut Vec<u8>, word: &[u8], outcome: &Outcome) -> Result<(), NoMemory>
    ensures { IfOk result (λ _. text.new.items ≡ text.old.items ++ told_outcome word.now outcome.now) }
{
    text.extend_from_slice(word)?;
    text.extend_from_slice(write_outcome(outcome.moment, &outcome.reply).as_slice())?;
    Ok(())
}
