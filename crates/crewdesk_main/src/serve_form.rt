//! The form that serves callers.
ghost use Rattle.std.specs.Prelude.{◌≡◌, ◌↔◌, length};
ghost use Rattle.day_replay.specs.Replay.{EndsDay};
ghost use Rattle.serve_desk.specs.Serve.{IsNoNumberOfLines};
ghost use Rattle.crewdesk_main.specs.Callers.{ServesNames};

use caller_lines::{CallerLine, FileLine};
use desk_base::NoMemory;
use desk_io::{Sink, Source, Status};
use desk_model::LAST_CALLER;
use serve_desk::{Sessions, serve_by};
use std::fs::{File, Files};
use std::sync::Wait;
use std::thread::Threads;

/// Serves callers behind the day file that the source has, by sessions of this kind: the caller of each name says what is in the
/// file `NAME.in`, a line at a time, and has the replies in `NAME.out`, which is made anew. Where a file can't be opened or made, the
/// caller's line has a fault at once. Where there is no name, or there are more than 63, no file is opened. What is in the files, and
/// whose they are, no clause says: the lines over them tell nothing.
pub fn serve_callers<R, S: Source, K: Sink>(
    rt: &R,
    sessions: Sessions,
    names: &[String],
    source: &mut S,
    sink: &mut K,
) -> Status
where
    R: Files<File = File> + Threads + Wait + Sync + AllocGlobal,
    ensures usage { result ≡ Status.Usage ↔ IsNoNumberOfLines (length names.now) }
    ensures ends { EndsDay result
        (ServesNames sessions (length names.now) (S.left source.old) (S.left source.new))
        (S.left source.old) (S.left source.new) (S.faults source.old) (S.faults source.new)
        (K.held sink.old) (K.held sink.new) (K.faults sink.old) (K.faults sink.new) }
    ensures unread { result ≡ Status.Usage → S.left source.new ≡ S.left source.old }
{
    if names.is_empty() || names.len() > usize::from(LAST_CALLER) {
        return Status::Usage;
    }
    let mut lines: Vec<Box<dyn CallerLine + Send>> = Vec::new(rt.alloc());
    for name in names {
        let Ok(line) = line_of(rt, name.as_str()) else {
            return Status::NoMemory;
        };
        if lines.push(line).is_err() {
            return Status::NoMemory;
        }
    }
    serve_by(rt, rt.alloc(), sessions, source, &mut lines, sink)
}

// The line of a caller over the files of this name.
fn line_of<R>(rt: &R, name: &str) -> Result<Box<FileLine<File, File>>, NoMemory>
where
    R: Files<File = File> + AllocGlobal,
{
    let said = format!(in rt.alloc(); "{name}.in")?;
    let replies = format!(in rt.alloc(); "{name}.out")?;
    let reader = File::open(rt, said.as_str()).ok();
    let writer = File::create(rt, replies.as_str()).ok();
    Ok(Box::new(rt.alloc(), FileLine::new(reader, writer))?)
}
