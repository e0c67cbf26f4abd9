//! The crew calling desk: replays day files, serves callers, and audits journals.
#![tactic(auto)]

mod audit_form;
mod continue_form;
mod continue_text;
mod count_lines;
mod cut_at_plus;
mod exit;
mod form;
mod forms;
mod generate;
mod go_on;
mod keep_form;
mod limits;
mod read_tours;
mod run;
mod serve_form;
mod start;
mod take_journal;
mod tour_form;
mod tours;
mod words;
mod write_text;

use desk_io::{ReaderSource, Status, WriterSink};
use exit::exit;
use kept_desk::SystemClock;
use start::start;
use std::env;
use std::io::ErrorKind;
use std::process::ExitCode;
use std::rt::Env;
use words::behind_the_name;

fn main(rt: HostRuntime) -> ExitCode {
    let mut source = ReaderSource::new(rt.stdin());
    let mut sink = WriterSink::new(rt.stdout());
    let clock = SystemClock::new(rt);
    let status = match given_words(&rt) {
        Ok(words) => start(&rt, &clock, &words, &mut source, &mut sink),
        Err(status) => status,
    };
    exit(&rt, status)
}

// The words behind the program's name. One that is no UTF-8 is a faulty command line.
fn given_words(rt: &(impl Env + AllocGlobal)) -> Result<Vec<String>, Status> {
    let given = env::args(rt).map_err(|fault| match fault.kind() {
        ErrorKind::OutOfMemory => Status::NoMemory,
        _ => Status::Usage,
    })?;
    behind_the_name(rt.alloc(), given).map_err(|_| Status::NoMemory)
}
