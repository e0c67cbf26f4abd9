//! The desk, run as its words say.
ghost use Rattle.std.specs.Prelude.{◌≡◌, ◌↔◌, Some, false, true};
ghost use Rattle.crewdesk_main.specs.declared.form.Form.{Form as FormValue};
ghost use Rattle.crewdesk_main.specs.Forms.{Ends, KeepsCounts};
ghost use Rattle.crewdesk_main.specs.Words.{HasNumbers, asks, form_of, is_asked, runs};

use crate::audit_form::audit_journal;
use crate::continue_form::continue_journal;
use crate::form::Form;
use crate::generate::tally_generated;
use crate::tours::tell_tours;
use day_replay::replay_day;
use desk_io::{Sink, Source, Status};
use std::alloc::Global;

/// Runs the desk as the words say: with `replay` it reads a day file from the source and writes its journal to the sink, with
/// `tally` its tally, with `forecast` and a number its journal without so many last commands and what would be answered to these, and
/// with `when` and two numbers from when on nothing bars a person from a vacancy; with `audit` it reads a journal and writes whether it is
/// legal; with `continue` it reads a journal and commands, and writes the journal that goes on with them; with `record` and a number,
/// or `excess`, it reads a journal as it stands and writes records of its tours; with `gen` and numbers it reads nothing, and writes
/// the tally of a day that is made from them. It knows no other words.
pub fn run<S: Source, K: Sink>(
    alloc: Global,
    words: &[String],
    source: &mut S,
    sink: &mut K,
) -> Status
    ensures usage { result ≡ Status.Usage ↔ (is_asked runs (form_of words.now) ≡ false) }
    ensures ends { (form : FormValue) → form_of words.now ≡ Some form → runs form ≡ true
        → Ends form result
        (S.left source.old) (S.left source.new) (S.faults source.old) (S.faults source.new)
        (K.held sink.old) (K.held sink.new) (K.faults sink.old) (K.faults sink.new) }
    ensures unasked { is_asked asks (form_of words.now) ≡ false
        → S.left source.new ≡ S.left source.old }
    ensures unasked_faults { is_asked asks (form_of words.now) ≡ false
        → S.faults source.new ≡ S.faults source.old }
    ensures counts { KeepsCounts result (S.faults source.old) (S.faults source.new)
        (K.held sink.old) (K.held sink.new) (K.faults sink.old) (K.faults sink.new) }
{
    match Form::read(words) {
        Some(form) => run_form(alloc, form, source, sink),
        None => Status::Usage,
    }
}

/// Runs the desk as the form says, where it takes a source and a sink alone: for any other form `Usage` comes.
pub fn run_form<S: Source, K: Sink>(
    alloc: Global,
    form: Form,
    source: &mut S,
    sink: &mut K,
) -> Status
    requires numbers { HasNumbers form }
    ensures usage { result ≡ Status.Usage ↔ (runs form ≡ false) }
    ensures ends { runs form ≡ true → Ends form result
        (S.left source.old) (S.left source.new) (S.faults source.old) (S.faults source.new)
        (K.held sink.old) (K.held sink.new) (K.faults sink.old) (K.faults sink.new) }
    ensures unasked { asks form ≡ false → S.left source.new ≡ S.left source.old }
    ensures unasked_faults { asks form ≡ false → S.faults source.new ≡ S.faults source.old }
    ensures counts { KeepsCounts result (S.faults source.old) (S.faults source.new)
        (K.held sink.old) (K.held sink.new) (K.faults sink.old) (K.faults sink.new) }
{
    match form {
        Form::Day(form) => replay_day(alloc, form, source, sink),
        Form::Audit => audit_journal(alloc, source, sink),
        Form::Continue => continue_journal(alloc, source, sink),
        Form::Tours(form) => tell_tours(alloc, form, source, sink),
        Form::Gen {
            commands,
            number,
            edition,
        } => tally_generated(alloc, commands, number, edition, sink),
        Form::Help | Form::Version | Form::Serve { .. } | Form::Keep { .. } => Status::Usage,
    }
}
