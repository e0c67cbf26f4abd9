//! One line of a caller heard.
ghost use Rattle.std.specs.Prelude.{◌≡◌, ◌≢◌, ◌≤◌, ℕ, List};
ghost use Rattle.desk_io.specs.Faults.{Rose};
ghost use Rattle.command_parser.specs.CommandLine.{IsCommandLine};
ghost use Rattle.desk_model.specs.statements.Statement.{StatedValue};
ghost use Rattle.caller_lines.specs.CrewLines.{IsNoCrew};
ghost use Rattle.caller_lines.specs.Given.{answer_of};
ghost use Rattle.caller_lines.specs.LineCalls.{Asked};
ghost use Rattle.caller_lines.specs.Told.{with_last};
ghost use Rattle.caller_lines.specs.Hears.{Hears, ReadsAs, ReadsLine};
ghost use Rattle.caller_lines.specs.Looks.{IsNoLook};
ghost use Rattle.caller_lines.specs.Requests.{HearsRequest, ReadsRequest, ReadsLineAsRequest};

use crate::crew_line::read_crew;
use crate::look_line::read_look;
use crate::{CallerLine, Heard, LineBuf, Request, Said};
use command_parser::{ReadFail, read_next_command};
use desk_base::NoMemory;
use record_rows::LastMinute;
use std::alloc::Global;

/// Asks the line once, and reads what it gives as a command. Memory is wanted only where it gave a line.
pub fn hear(alloc: Global, line: &mut Box<dyn CallerLine + Send>) -> Said
    ensures hears { Hears (calls line.old) (calls line.new) result }
    ensures faults_grow { faults line.old ≤ faults line.new }
    ensures cause { result ≡ Said.LineFault → Rose (faults line.old) (faults line.new) }
    ensures no_fault { result ≢ Said.LineFault → faults line.new ≡ faults line.old }
    ensures settled { result ≡ Said.End → settled line.new }
{
    hear_next(alloc, &mut LastMinute::new(), line)
}

/// As `hear`, of a line that comes behind others. `last` is the minute that they stated last: it only spares work.
pub fn hear_next(
    alloc: Global,
    last: &mut LastMinute,
    line: &mut Box<dyn CallerLine + Send>,
) -> Said
    ensures hears { Hears (calls line.old) (calls line.new) result }
    ensures faults_grow { faults line.old ≤ faults line.new }
    ensures cause { result ≡ Said.LineFault → Rose (faults line.old) (faults line.new) }
    ensures no_fault { result ≢ Said.LineFault → faults line.new ≡ faults line.old }
    ensures settled { result ≡ Said.End → settled line.new }
{
    let mut bytes = LineBuf::new();
    let heard = ask(line, &mut bytes);
    read_heard(alloc, last, heard, &bytes)
}

/// Asks the line once, and reads what it gives as a look at a board or a crew call, or else as a command. Memory is wanted only where
/// it gave a line.
pub fn hear_request(alloc: Global, line: &mut Box<dyn CallerLine + Send>) -> Request
    ensures hears { HearsRequest (calls line.old) (calls line.new) result }
    ensures faults_grow { faults line.old ≤ faults line.new }
    ensures cause { result ≡ Request.Said Said.LineFault → Rose (faults line.old) (faults line.new) }
    ensures no_fault { result ≢ Request.Said Said.LineFault → faults line.new ≡ faults line.old }
    ensures settled { result ≡ Request.Said Said.End → settled line.new }
{
    hear_next_request(alloc, &mut LastMinute::new(), line)
}

/// As `hear_request`, of a line that comes behind others. `last` is the minute that they stated last: it only spares work.
pub fn hear_next_request(
    alloc: Global,
    last: &mut LastMinute,
    line: &mut Box<dyn CallerLine + Send>,
) -> Request
    ensures hears { HearsRequest (calls line.old) (calls line.new) result }
    ensures faults_grow { faults line.old ≤ faults line.new }
    ensures cause { result ≡ Request.Said Said.LineFault → Rose (faults line.old) (faults line.new) }
    ensures no_fault { result ≢ Request.Said Said.LineFault → faults line.new ≡ faults line.old }
    ensures settled { result ≡ Request.Said Said.End → settled line.new }
{
    let mut bytes = LineBuf::new();
    let heard = ask(line, &mut bytes);
    read_heard_request(alloc, last, heard, &bytes)
}

// Asks the line for its next.
fn ask(line: &mut Box<dyn CallerLine + Send>, into: &mut LineBuf) -> Heard
    ensures asked { calls line.new ≡ with_last (calls line.old) (Asked (answer_of result into.new.items)) }
    ensures faults_grow { faults line.old ≤ faults line.new }
    ensures cause { result ≡ Heard.Failed → Rose (faults line.old) (faults line.new) }
    ensures no_fault { result ≢ Heard.Failed → faults line.new ≡ faults line.old }
    ensures settled { result ≡ Heard.End → settled line.new }
{
    line.next(into)
}

// What was said by an answer, with the bytes of a line.
fn read_heard(alloc: Global, last: &mut LastMinute, heard: Heard, bytes: &LineBuf) -> Said
    ensures reads { ReadsAs (answer_of heard bytes.now.items) result }
    ensures fault { result ≡ Said.LineFault → heard ≡ Heard.Failed }
    ensures no_fault { heard ≡ Heard.Failed → result ≡ Said.LineFault }
    ensures end { result ≡ Said.End → heard ≡ Heard.End }
{
    match heard {
        Heard::Line => read_line(alloc, last, bytes.as_slice()),
        Heard::TooLong => Said::TooLong,
        Heard::End => Said::End,
        Heard::Failed => Said::LineFault,
    }
}

// What was said by an answer, with the bytes of a line, where looks and crew calls are heard.
fn read_heard_request(
    alloc: Global,
    last: &mut LastMinute,
    heard: Heard,
    bytes: &LineBuf,
) -> Request
    ensures reads { ReadsRequest (answer_of heard bytes.now.items) result }
    ensures fault { result ≡ Request.Said Said.LineFault → heard ≡ Heard.Failed }
    ensures no_fault { heard ≡ Heard.Failed → result ≡ Request.Said Said.LineFault }
    ensures end { result ≡ Request.Said Said.End → heard ≡ Heard.End }
{
    match heard {
        Heard::Line => read_line_or_request(alloc, last, bytes.as_slice()),
        Heard::TooLong => Request::Said(Said::TooLong),
        Heard::End => Request::Said(Said::End),
        Heard::Failed => Request::Said(Said::LineFault),
    }
}

// What was said by a line of these bytes.
fn read_line(alloc: Global, last: &mut LastMinute, bytes: &[u8]) -> Said
    ensures reads { ReadsLine bytes.now result }
{
    match read_next_command(alloc, last, bytes) {
        Ok(stated) => Said::Command(stated),
        Err(ReadFail::Malformed(field)) => Said::Malformed(field),
        Err(ReadFail::NoMemory) => Said::NoMemory,
    }
}

// The same, where looks and crew calls are heard. Only what is no command can be a crew call.
fn read_line_or_request(alloc: Global, last: &mut LastMinute, bytes: &[u8]) -> Request
    ensures reads { ReadsLineAsRequest bytes.now result }
{
    match read_look(alloc, bytes) {
        Ok(Some(look)) => Request::Look {
            board: look.board,
            position: look.position,
        },
        Ok(None) => read_line_or_crew(alloc, last, bytes),
        Err(NoMemory) => Request::Said(Said::NoMemory),
    }
}

// The same of a line that is no look.
fn read_line_or_crew(alloc: Global, last: &mut LastMinute, bytes: &[u8]) -> Request
    requires { IsNoLook bytes.now }
    ensures reads { ReadsLineAsRequest bytes.now result }
{
    a_crew_call_is_no_command();
    match read_line(alloc, last, bytes) {
        Said::Malformed(field) => match read_crew(alloc, bytes) {
            Ok(Some(crew)) => Request::Crew {
                minute: crew.minute,
                first: crew.first,
                second: crew.second,
            },
            Ok(None) => Request::Said(Said::Malformed(field)),
            Err(NoMemory) => Request::Said(Said::NoMemory),
        },
        said => Request::Said(said),
    }
}

// A line that asks for a crew call states no command. It does nothing: its clause is the law.
fn a_crew_call_is_no_command()
    ensures { (line : List ℕ) (s : StatedValue) → IsCommandLine line s → IsNoCrew line }
{}
