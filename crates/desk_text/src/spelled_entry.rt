//! Entries, and what was stated by whom, read from lines of a journal.
ghost use Rattle.std.specs.Prelude.{◌≡◌, ◌≤◌, ◌∷◌, ◌++◌, ℕ, List, decimal, IfSome, IsSomeAnd, IsTrue};
ghost use Rattle.desk_model.specs.declared.limits.TheConstants.{LAST_CALLER};
ghost use Rattle.desk_model.specs.statements.Entry.{EntryValue};
ghost use Rattle.desk_model.specs.statements.Statement.{StatedValue};
ghost use Rattle.command_parser.specs.Spelled.{SpellsStated};
ghost use Rattle.desk_text.specs.SpelledEntry.{IsEntryLine, BeginsEntry};
ghost use Rattle.desk_text.specs.declared.statement.Statement.{Statement as StatementValue};

use crate::cut::{before, cut, cut_minute};
use crate::spelled_reply::read_reply;
use crate::statement::Statement;
use command_parser::{a_record_states_one_command, put_stated};
use desk_base::read_decimal;
use desk_model::{Entry, LAST_CALLER, Stated};
use record_rows::{Fields, LastMinute, fill_with_line};

/// The entry of a line of the journal, `caller|command|moment|reply` with its line feed; `None` for every other text: the line
/// is the one spelling of its entry. A command and a reply that the desk would never give it are read all the same.
pub fn read_entry(line: &[u8]) -> Option<Entry>
    ensures some { IfSome result (IsEntryLine line.now) }
    ensures only { (e : EntryValue) → IsEntryLine line.now e → result ≡ Some e }
{
    read_next_entry(
        &mut Statement::new(),
        &mut Fields::new(),
        &mut LastMinute::new(),
        &mut LastMinute::new(),
        line,
    )
}

/// The entry of a line of the journal that stands behind others, as `read_entry` reads it. Who stated what by it is put in place of what
/// `statement` has, and the fields of that in place of those that `fields` has; the last minutes are those that the lines before it
/// named: all four only spare work.
pub fn read_next_entry<'a>(
    statement: &mut Statement,
    fields: &mut Fields<'a>,
    stated_last: &mut LastMinute,
    moment_last: &mut LastMinute,
    line: &'a [u8],
) -> Option<Entry>
    ensures some { IfSome result (IsEntryLine line.now) }
    ensures only { (e : EntryValue) → IsEntryLine line.now e → result ≡ Some e }
{
    let outcome = put_statement(statement, fields, stated_last, line)?;
    let (moment, reply) = cut_minute(outcome, b'|')?;
    let moment = moment_last.read(moment)?;
    let reply = read_reply(before(reply, b"\n")?)?;
    Some(Entry::new(statement.caller, statement.stated, moment, reply))
}

/// Puts who stated what by a line of the journal in place of what `statement` has, read as far as that stands in it, `caller|command|`,
/// and gives the outcome that stands behind it, as it is. It is `None` where the line begins otherwise, and then `statement` means
/// nothing. The fields of what was stated are put in place of those that `fields` has, and `last` is the minute that the lines before
/// it stated last: both only spare work.
pub fn put_statement<'a>(
    statement: &mut Statement,
    fields: &mut Fields<'a>,
    last: &mut LastMinute,
    line: &'a [u8],
) -> Option<&'a [u8]>
    ensures some { IfSome result (λ outcome. BeginsEntry line.now outcome.now statement.new) }
    ensures only { (s : StatementValue) (outcome : List ℕ) → BeginsEntry line.now outcome s
        → IsSomeAnd result (λ read. (statement.new ≡ s) × (read.now ≡ outcome)) }
{
    let (caller, rest) = cut_caller(line)?;
    let (stated, outcome) = cut(rest, b'|')?;
    statement.caller = read_caller(caller)?;
    if put_stated_text(&mut statement.stated, fields, last, stated) {
        Some(outcome)
    } else {
        None
    }
}

// What stands before the first bar of a line where that is the second byte or the third, as it is behind a caller's text, and what stands
// behind it.
fn cut_caller(line: &[u8]) -> Option<(&[u8], &[u8])>
    ensures some { IfSome result (λ parts. line.now ≡ parts.0.now ++ 124 ∷ parts.1.now) }
    ensures only { (caller : ℕ) (back : List ℕ) → caller ≤ LAST_CALLER → line.now ≡ decimal caller ++ 124 ∷ back
        → IsSomeAnd result (λ parts. (parts.0.now ≡ decimal caller) × (parts.1.now ≡ back)) }
{
    match line {
        [_, b'|', back @ ..] => Some((&line[..1], back)),
        [_, _, b'|', back @ ..] => Some((&line[..2], back)),
        _ => None,
    }
}

// A caller's number, 0 to 63.
fn read_caller(text: &[u8]) -> Option<u8>
    ensures some { IfSome result (λ caller. (caller ≤ LAST_CALLER)
        × (text.now ≡ decimal caller)) }
    ensures only { (caller : ℕ) → caller ≤ LAST_CALLER → text.now ≡ decimal caller
        → result ≡ Some caller }
{
    let caller = u8::try_from(read_decimal(text)?).ok()?;
    if caller <= LAST_CALLER {
        Some(caller)
    } else {
        None
    }
}

// Puts what was stated, and when, in place of what `stated` has: its record with plain commas; false where the text is of nothing.
fn put_stated_text<'a>(
    stated: &mut Stated,
    fields: &mut Fields<'a>,
    last: &mut LastMinute,
    text: &'a [u8],
) -> bool
    ensures some { IsTrue result → SpellsStated text.now stated.new }
    ensures only { (s : StatedValue) → SpellsStated text.now s → IsTrue result × (stated.new ≡ s) }
{
    a_record_states_one_command();
    fill_with_line(fields, text);
    put_stated(stated, last, fields.as_slice())
}
