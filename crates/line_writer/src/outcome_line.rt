//! What the desk answered, and bars, as texts of their own.
ghost use Rattle.std.specs.Prelude.{◌≡◌, ◌≢◌, ◌≤◌, ◌+◌, ◌∷◌, ◌++◌, [], IfOk, codes};
ghost use Rattle.std.specs.Bool.{OnTrue, OnFalse};
ghost use Rattle.arrayvec.specs.ArrayVec.{array_vec_len};
ghost use Rattle.desk_model.specs.texts.BarTexts.{bar_text};
ghost use Rattle.desk_model.specs.texts.ReplyTexts.{reply_text};
ghost use Rattle.line_writer.specs.Line.{outcome_line};

use crate::bar_line::put_bar;
use crate::line_text::{LineText, put, put_byte};
use crate::reply_line::put_reply;
use denial_rules::Bar;
use desk_base::{Minute, NoMemory};
use desk_model::{EntryRef, Reply};
use record_rows::LastMinute;

/// The line `moment|reply`, with its line feed: when the desk took a command, and what it answered.
pub fn write_outcome(moment: Minute, reply: &Reply) -> LineText
    ensures { result.items ≡ outcome_line moment reply.now }
{
    let mut line = LineText::new();
    put_outcome(&mut line, &mut LastMinute::new(), moment, reply);
    line
}

// Whether a text is plainly the line of a command that was done at this moment; of any text it may be false.
fn is_done_at(text: &[u8], last: &mut LastMinute, moment: Minute) -> bool
    ensures { OnTrue result (text.now ≡ outcome_line moment Reply.Done) }
{
    match text.first_chunk() {
        Some(chunk) if last.is_text_of(moment, chunk) => {
            matches!(&text[16..], [b'|', b'd', b'o', b'n', b'e', b'\n'])
        }
        _ => false,
    }
}

/// Whether a text is the line of the entry's outcome, `moment|reply` with its line feed. `line` is for that line to be written into where it
/// has to be, and `last` is the moment that the lines before it named last: it only spares work.
pub fn is_outcome(text: &[u8], line: &mut LineText, last: &mut LastMinute, entry: &EntryRef) -> bool
    ensures same { OnTrue result (text.now ≡ outcome_line entry.now.moment entry.now.reply) }
    ensures other { OnFalse result (text.now ≢ outcome_line entry.now.moment entry.now.reply) }
{
    if matches!(entry.reply(), Reply::Done) && is_done_at(text, last, entry.moment()) {
        return true;
    }
    line.clear();
    put_outcome(line, last, entry.moment(), &entry.reply());
    text == line.as_slice()
}

/// Adds that line, 66 bytes at most.
pub(crate) fn put_outcome(line: &mut LineText, last: &mut LastMinute, moment: Minute, reply: &Reply)
    requires { array_vec_len line.old + 66 ≤ 512 }
    ensures { line.new.items ≡ line.old.items ++ outcome_line moment reply.now }
{
    put(line, &last.write(moment));
    put_byte(line, b'|');
    put_reply(line, reply);
    put_byte(line, b'\n');
}

// A moment between its bars.
fn between_bars(moment: [u8; 16]) -> [u8; 18]
    ensures { result ≡ 124 ∷ moment ++ 124 ∷ [] }
{
    let mut text = *b"|YYYY-MM-DD HH:MM|";
    text[1..17].copy_from_slice(&moment);
    text
}

/// What stands behind the statement on the line of an entry that was done at the moment of this text, with the line feed.
pub fn done_at(moment: [u8; 16]) -> [u8; 23]
    ensures { result ≡ 124 ∷ moment ++ codes "|done\n" }
{
    let mut text = *b"|YYYY-MM-DD HH:MM|done\n";
    text[1..17].copy_from_slice(&moment);
    text
}

/// Adds to a text what stands behind the statement on the entry's line, `|moment|reply`, with the line feed; what stood in `line` is gone.
/// `last` is the moment that the lines before it named last: it only spares work.
pub fn add_outcome(
    text: &mut Vec<u8>,
    line: &mut LineText,
    last: &mut LastMinute,
    entry: &EntryRef,
) -> Result<(), NoMemory>
    ensures { IfOk result (λ _. text.new.items
        ≡ text.old.items ++ 124 ∷ outcome_line entry.now.moment entry.now.reply) }
{
    let moment = last.write(entry.moment());
    match &entry.reply() {
        Reply::Done => {
            text.extend_from_slice(&done_at(moment))?;
            Ok(())
        }
        reply => {
            text.extend_from_slice(&between_bars(moment))?;
            add_reply(text, line, reply)
        }
    }
}

// Adds a reply, and the line feed.
fn add_reply(text: &mut Vec<u8>, line: &mut LineText, reply: &Reply) -> Result<(), NoMemory>
    ensures { IfOk result (λ _. text.new.items
        ≡ text.old.items ++ (reply_text reply.now ++ 10 ∷ [])) }
{
    line.clear();
    put_reply(line, reply);
    put_byte(line, b'\n');
    text.extend_from_slice(line.as_slice())?;
    Ok(())
}

/// The text of a bar, with no line feed.
pub fn write_bar(bar: &Bar) -> LineText
    ensures { result.items ≡ bar_text bar.now }
{
    let mut text = LineText::new();
    put_bar(&mut text, bar);
    text
}
