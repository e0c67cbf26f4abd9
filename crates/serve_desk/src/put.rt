//! A text put on a line.
ghost use Rattle.std.specs.Prelude.{◌≡◌, ◌≢◌, ◌≤◌, [], ◌∷◌, None};
ghost use Rattle.std.specs.Bool.{OnTrue, OnFalse};
ghost use Rattle.desk_io.specs.Faults.{Rose};
ghost use Rattle.caller_lines.specs.LineCalls.{PutText};
ghost use Rattle.caller_lines.specs.Told.{with_last};
ghost use Rattle.serve_desk.specs.Answers.{PutsOn};
ghost use Rattle.serve_desk.specs.WatchAnswers.{PutsAllOn, PutsFault};

use crate::Why;
use crate::texts::JOURNAL_FAULT;
use caller_lines::CallerLine;

/// Puts a text on the line, behind which the session ends or goes on as told. Where it ends, all that was put is written. Where the line
/// doesn't take the text, or it can't be written then, that is a fault and ends the session.
pub(crate) fn put_on(
    line: &mut Box<dyn CallerLine + Send>,
    text: &[u8],
    then: Option<Why>,
) -> Option<Why>
    requires { then ≢ Some Why.LineFault }
    ensures puts { PutsOn text.now then (calls line.old) (calls line.new) result }
    ensures faults_grow { faults line.old ≤ faults line.new }
    ensures cause { result ≡ Some Why.LineFault → Rose (faults line.old) (faults line.new) }
    ensures no_fault { result ≢ Some Why.LineFault → faults line.new ≡ faults line.old }
    ensures settled { result ≢ None → result ≢ Some Why.LineFault → settled line.new }
    ensures kept { then ≢ Some Why.JournalFault → result ≢ Some Why.JournalFault }
{
    if !put(line, text) {
        return Some(Why::LineFault);
    }
    match then {
        None => None,
        Some(_) => {
            if finish(line) {
                then
            } else {
                Some(Why::LineFault)
            }
        }
    }
}

/// Puts two texts on the line, one behind the other, behind which the session goes on. Where the line doesn't take one, that is a fault
/// and ends the session.
pub(crate) fn put_both(
    line: &mut Box<dyn CallerLine + Send>,
    first: &[u8],
    second: &[u8],
) -> Option<Why>
    ensures puts { PutsAllOn (first.now ∷ second.now ∷ []) (calls line.old) (calls line.new) result }
    ensures faults_grow { faults line.old ≤ faults line.new }
    ensures cause { result ≡ Some Why.LineFault → Rose (faults line.old) (faults line.new) }
    ensures no_fault { result ≢ Some Why.LineFault → faults line.new ≡ faults line.old }
    ensures settled { result ≢ None → result ≢ Some Why.LineFault → settled line.new }
    ensures kept { result ≢ Some Why.JournalFault }
{
    let ends = put_on(line, first, None);
    match ends {
        None => put_on(line, second, None),
        Some(_) => ends,
    }
}

/// Tells the line that the journal had a fault, where it takes that: the session ends either way.
pub(crate) fn put_journal_fault(line: &mut Box<dyn CallerLine + Send>)
    ensures puts { PutsFault (calls line.old) (calls line.new) }
    ensures faults_grow { faults line.old ≤ faults line.new }
{
    if put(line, JOURNAL_FAULT) {
        let _written = finish(line);
    }
}

// Puts a text on the line, and says whether it was taken.
fn put(line: &mut Box<dyn CallerLine + Send>, text: &[u8]) -> bool
    ensures puts { OnTrue result (calls line.new ≡ with_last (calls line.old) (PutText text.now)) }
    ensures no_put { OnFalse result (calls line.new ≡ calls line.old) }
    ensures faults_grow { faults line.old ≤ faults line.new }
    ensures cause { OnFalse result (Rose (faults line.old) (faults line.new)) }
    ensures no_fault { OnTrue result (faults line.new ≡ faults line.old) }
{
    line.put(text)
}

// Writes what was put on the line, and says whether all of it was written.
fn finish(line: &mut Box<dyn CallerLine + Send>) -> bool
    ensures settled { OnTrue result (settled line.new) }
    ensures told { calls line.new ≡ calls line.old }
    ensures faults_grow { faults line.old ≤ faults line.new }
    ensures cause { OnFalse result (Rose (faults line.old) (faults line.new)) }
    ensures no_fault { OnTrue result (faults line.new ≡ faults line.old) }
{
    line.finish()
}
