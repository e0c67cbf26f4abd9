//! The program's command line.
ghost use Rattle.std.specs.Prelude.{◌≡◌, ◌↔◌, None, Some, drop, false};
ghost use Rattle.crewdesk_main.specs.declared.form.Form.{Form as FormValue};
ghost use Rattle.crewdesk_main.specs.Forms.{Ends, KeepsCounts};
ghost use Rattle.crewdesk_main.specs.Words.{form_of, is_asked, reads};

use crate::form::Form;
use crate::forms::perform;
use crate::keep_form::keep_callers;
use crate::serve_form::serve_callers;
use crate::words::{behind_the_first, behind_the_guard};
use desk_io::{Sink, Source, Status};
use kept_desk::SystemClock;
use std::fs::{File, Files};
use std::sync::Wait;
use std::thread::Threads;
use std::time::Clock;

/// Does what the words say: serves the callers who are named, with a journal that is kept or without, or else what `perform` does, which waits for nobody.
pub fn start<R, S: Source, K: Sink>(
    rt: &R,
    clock: &SystemClock<HostRuntime>,
    words: &[String],
    source: &mut S,
    sink: &mut K,
) -> Status
where
    R: Files<File = File> + Threads + Wait + Sync + AllocGlobal + Eprint + Clock,
    ensures usage { result ≡ Status.Usage ↔ (form_of words.now ≡ None) }
    ensures ends { (form : FormValue) → form_of words.now ≡ Some form → Ends form result
        (S.left source.old) (S.left source.new) (S.faults source.old) (S.faults source.new)
        (K.held sink.old) (K.held sink.new) (K.faults sink.old) (K.faults sink.new) }
    ensures unasked { is_asked reads (form_of words.now) ≡ false
        → S.left source.new ≡ S.left source.old }
    ensures unasked_faults { is_asked reads (form_of words.now) ≡ false
        → S.faults source.new ≡ S.faults source.old }
    ensures counts { KeepsCounts result (S.faults source.old) (S.faults source.new)
        (K.held sink.old) (K.held sink.new) (K.faults sink.old) (K.faults sink.new) }
{
    match Form::read(words) {
        Some(Form::Serve { sessions, .. }) => {
            serve_callers(rt, sessions, behind_the_first(words), source, sink)
        }
        Some(Form::Keep { guard, .. }) => {
            let names = behind_the_guard(guard, behind_the_first(words));
            keep_callers(rt, clock, guard, names, source, sink)
        }
        Some(form) => perform(rt.alloc(), form, source, sink),
        None => Status::Usage,
    }
}
