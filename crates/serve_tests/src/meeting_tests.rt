//! Two lines that wait for one another.
ghost use Rattle.std.specs.Prelude.{None, ⊤};

use crate::openings::{LOOK, OPENING};
use caller_lines::{CallerLine, Heard, LineBuf};
use desk_io::{MemorySink, MemorySource, Status};
use serve_desk::serve;
use std::alloc::Global;
use std::sync::Arc;
use std::sync::atomic::{AtomicU64, Ordering};
use std::test::Fail;

// A line that gives one command, and has no more once the other line's first answer was put; it fails where it has looked for
// that 100,000,000 times. It tells by a count of its own whether it had no more.
#[derive(Drop)]
struct Meeting {
    asked: u64,
    put: Arc<AtomicU64, Global>,
    other_put: Arc<AtomicU64, Global>,
    ended: Arc<AtomicU64, Global>,
    faults: u64,
}

impl CallerLine for Meeting {
    ghost faults = { λ s. s.faults };

    ghost calls = { λ _. None };

    ghost settled = { λ _. ⊤ };

    fn next(&mut self, into: &mut LineBuf) -> Heard {
        into.clear();
        self.asked = self.asked.saturating_add(1);
        if self.asked == 1 && into.try_extend_from_slice(LOOK).is_ok() {
            return Heard::Line;
        }
        for _ in 0..100_000_000u64 {
            if self.other_put.load(Ordering::SeqCst) > 0 {
                self.ended.fetch_add(1, Ordering::SeqCst);
                return Heard::End;
            }
        }
        self.faults = self.faults.saturating_add(1);
        Heard::Failed
    }

    fn put(&mut self, _text: &[u8]) -> bool {
        self.put.fetch_add(1, Ordering::SeqCst);
        true
    }

    fn finish(&mut self) -> bool {
        true
    }

    fn put_count(&self) -> u32 {
        0
    }

    fn was_put(&self, _number: u32, _text: &[u8]) -> bool {
        false
    }
}

#[test]
fn two_lines_meet(rt: HostRuntime) -> Result<(), Fail> {
    let alloc = rt.alloc();
    let first_put = Arc::new(alloc, AtomicU64::new(0))?;
    let second_put = Arc::new(alloc, AtomicU64::new(0))?;
    let ended = Arc::new(alloc, AtomicU64::new(0))?;
    let mut lines: Vec<Box<dyn CallerLine + Send>> = Vec::new(alloc);
    for (put, other_put) in [(&first_put, &second_put), (&second_put, &first_put)] {
        let line = Meeting {
            asked: 0,
            put: Arc::try_clone(put)?,
            other_put: Arc::try_clone(other_put)?,
            ended: Arc::try_clone(&ended)?,
            faults: 0,
        };
        lines.push(Box::new(alloc, line)?)?;
    }
    let mut source = MemorySource::new(OPENING.to_vec(alloc)?, 100, Vec::new(alloc));
    let mut sink = MemorySink::new(alloc, 1_000, 1_000, Vec::new(alloc))?;
    let status = serve(&rt, alloc, &mut source, &mut lines, &mut sink);
    assert!(rt; status == Status::Fine);
    assert_eq!(rt; ended.load(Ordering::SeqCst), 2);
    assert_eq!(rt; sink.bytes().split(|byte| *byte == b'\n').count(), 4);
    Ok(())
}
