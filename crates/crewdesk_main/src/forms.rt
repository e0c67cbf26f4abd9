//! What the program does that serves no callers.
ghost use Rattle.std.specs.Prelude.{◌≡◌, ◌↔◌, false, true};
ghost use Rattle.crewdesk_main.specs.Forms.{Ends, KeepsCounts};
ghost use Rattle.crewdesk_main.specs.Words.{HasNumbers, asks, serves};

use crate::form::Form;
use crate::run::run_form;
use crate::write_text::write_text;
use desk_io::{Sink, Source, Status};
use std::alloc::Global;

// The forms of the command line, one a line.
const HELP: &str = "\
crewdesk replay          reads a day file from standard input and writes its journal to standard output
crewdesk tally           reads a day file from standard input and writes its tally to standard output
crewdesk forecast K      reads a day file from standard input and writes its journal without the last K commands, and what would be answered to these
crewdesk when V P        reads a day file from standard input and writes from when on nothing bars person P from vacancy V
crewdesk serve NAME ...  reads a day file from standard input, serves the caller of each name from NAME.in to NAME.out, and writes the journal of all
crewdesk watch NAME ...  does so, and hears lines `look,B,K`: who stands at place K of board B; and `M,crew,V,W`: both vacancies are called, or neither
crewdesk keep J NAME ...  serves so at a desk whose journal is in file J, made from a day file or gone on with; no reply is put before its entry is synced there
crewdesk keep --clock Z --ahead N J NAME ...  does so, and answers what is stated more than N minutes ahead of the clock, at Z from UTC, such as -0600, with the clock's minute
crewdesk audit           reads a journal from standard input and writes whether it is legal, or what is wrong in it
crewdesk continue        reads a journal, a line + and commands from standard input and writes the journal that goes on with them
crewdesk record P        reads a journal from standard input and writes the records of the tours of person P as JSON
crewdesk excess          reads a journal from standard input and writes the records of all tours that were too long as JSON
crewdesk gen N K         makes a day of N commands from the number K and writes the tally of its answers
crewdesk gen N K 2       does so by the second edition of the rules
crewdesk --help          prints these lines
crewdesk --version       prints the program's name and version
";

const VERSION: &str = "crewdesk 0.1.0\n";

/// Prints what is asked for of the program itself, or runs the desk as the form says. It waits for nobody: of a form that serves callers
/// `Usage` comes.
pub fn perform<S: Source, K: Sink>(
    alloc: Global,
    form: Form,
    source: &mut S,
    sink: &mut K,
) -> Status
    requires numbers { HasNumbers form }
    ensures usage { result ≡ Status.Usage ↔ (serves form ≡ true) }
    ensures ends { serves form ≡ false → Ends form result
        (S.left source.old) (S.left source.new) (S.faults source.old) (S.faults source.new)
        (K.held sink.old) (K.held sink.new) (K.faults sink.old) (K.faults sink.new) }
    ensures unasked { asks form ≡ false → S.left source.new ≡ S.left source.old }
    ensures unasked_faults { asks form ≡ false → S.faults source.new ≡ S.faults source.old }
    ensures counts { KeepsCounts result (S.faults source.old) (S.faults source.new)
        (K.held sink.old) (K.held sink.new) (K.faults sink.old) (K.faults sink.new) }
{
    match form {
        Form::Help => write_text(sink, HELP.as_bytes()),
        Form::Version => write_text(sink, VERSION.as_bytes()),
        _ => run_form(alloc, form, source, sink),
    }
}
