use desk_io::{
    Giving, InputFault, MemorySink, MemorySource, ReaderSource, Sink, Source, Status, SureSink,
    SureSource, Taking, WriterSink, put_all, take_all,
};
use std::io::{self, ErrorKind, Read, Write};
use std::test::Fail;

// Sixteen bytes, of which each test takes what it needs.
const BYTES: [u8; 16] = *b"one two three 45";

// A reader that gives two bytes, then an error, then one byte, then its end.
#[derive(Drop)]
struct Stumbling {
    calls: u8,
}

impl Read for Stumbling {
    fn read(&mut self, buf: &mut [u8]) -> io::Result<usize> {
        let call = self.calls;
        self.calls = call.saturating_add(1);
        match (call, buf) {
            (0, [first, second, ..]) => {
                *first = b'o';
                *second = b'n';
                Ok(2)
            }
            (1, _) => Err(ErrorKind::Other.into()),
            (2, [first, ..]) => {
                *first = b'e';
                Ok(1)
            }
            _ => Ok(0),
        }
    }
}

// A writer that takes two bytes, then none, then gives an error, and then takes all.
#[derive(Drop)]
struct Halting {
    calls: u8,
}

impl Write for Halting {
    fn write(&mut self, buf: &[u8]) -> io::Result<usize> {
        let call = self.calls;
        self.calls = call.saturating_add(1);
        match call {
            0 => Ok(buf.len().min(2)),
            1 => Ok(0),
            2 => Err(ErrorKind::Other.into()),
            _ => Ok(buf.len()),
        }
    }

    fn flush(&mut self) -> io::Result<()> {
        Ok(())
    }
}

// A reader of four bytes, one at a call, which fails at one of its calls.
#[derive(Drop)]
struct FailingReader {
    left: u8,
    calls: u8,
    failing: u8,
}

impl Read for FailingReader {
    fn read(&mut self, buf: &mut [u8]) -> io::Result<usize> {
        self.calls = self.calls.saturating_add(1);
        if self.calls == self.failing {
            return Err(ErrorKind::Other.into());
        }
        match buf {
            [first, ..] if self.left > 0 => {
                self.left -= 1;
                *first = b'a';
                Ok(1)
            }
            _ => Ok(0),
        }
    }
}

// A writer that takes all, and fails at one of its calls.
#[derive(Drop)]
struct FailingWriter {
    calls: u8,
    failing: u8,
}

impl Write for FailingWriter {
    fn write(&mut self, buf: &[u8]) -> io::Result<usize> {
        self.calls = self.calls.saturating_add(1);
        if self.calls == self.failing {
            return Err(ErrorKind::Other.into());
        }
        Ok(buf.len())
    }

    fn flush(&mut self) -> io::Result<()> {
        Ok(())
    }
}

#[test]
fn each_status_has_its_code_and_word(rt: HostRuntime) {
    for (status, code, word) in [
        (Status::Fine, 0, ""),
        (Status::Usage, 2, "usage"),
        (Status::ReadFault, 3, "read fault"),
        (Status::WriteFault, 4, "write fault"),
        (Status::TooLong, 5, "too long"),
        (Status::NoMemory, 6, "no memory"),
        (Status::AuditWrong, 7, "wrong"),
        (Status::NoOpening, 8, "no opening"),
        (Status::Unreadable, 9, "unreadable"),
    ] {
        assert_eq!(rt; status.code(), code, "the code of {status:?}");
        assert_eq!(rt; status.word(), word);
    }
}

#[test]
fn all_is_taken_up_to_the_limit(rt: HostRuntime) -> Result<(), Fail> {
    let alloc = rt.alloc();
    for (limit, want) in [
        (0, Err(InputFault::TooLong)),
        (15, Err(InputFault::TooLong)),
        (16, Ok(16)),
        (17, Ok(16)),
        (usize::MAX, Ok(16)),
    ] {
        let mut source = SureSource::new(BYTES.to_vec(alloc)?);
        let got = take_all(alloc, &mut source, limit);
        assert_eq!(rt; got.map(|bytes| bytes.len()), want, "at the limit {limit}");
    }
    Ok(())
}

// Sixteen bytes in pieces of five come at four calls, and the fifth says that none is left.
#[test]
fn a_source_fails_at_the_listed_call(rt: HostRuntime) -> Result<(), Fail> {
    let alloc = rt.alloc();
    for (failing, want) in [
        (1, Err(InputFault::ReadFault)),
        (2, Err(InputFault::ReadFault)),
        (3, Err(InputFault::ReadFault)),
        (4, Err(InputFault::ReadFault)),
        (5, Err(InputFault::ReadFault)),
        (6, Ok(16)),
    ] {
        let mut source = MemorySource::new(BYTES.to_vec(alloc)?, 5, vec![in alloc; failing]?);
        let got = take_all(alloc, &mut source, 16);
        assert_eq!(rt;
            got.map(|bytes| bytes.len()),
            want,
            "failing at call {failing}"
        );
    }
    Ok(())
}

// After a fault a source goes on where it was.
#[test]
fn a_source_goes_on_after_a_fault(rt: HostRuntime) -> Result<(), Fail> {
    let alloc = rt.alloc();
    let mut source = MemorySource::new(BYTES.to_vec(alloc)?, 5, vec![in alloc; 2]?);
    let got = take_all(alloc, &mut source, 16);
    assert_eq!(rt; got.map(|bytes| bytes.len()), Err(InputFault::ReadFault));
    let rest = take_all(alloc, &mut source, 11).ok().ok_or("the rest")?;
    assert_eq!(rt; rest.as_slice(), b"wo three 45".as_slice());
    Ok(())
}

// Forty-eight bytes in pieces of sixteen go at three calls.
#[test]
fn a_sink_holds_what_came_before_its_fault(rt: HostRuntime) -> Result<(), Fail> {
    let alloc = rt.alloc();
    let text = [BYTES, *b"six seven eight ", *b"nine ten eleven."];
    let text = text.as_flattened();
    for (room, failing, all, held) in [
        (48, 1, false, 0),
        (48, 2, false, 16),
        (48, 3, false, 32),
        (48, 4, true, 48),
        (47, 9, false, 47),
        (0, 9, false, 0),
    ] {
        let failing = vec![in alloc; failing]?;
        let mut sink = MemorySink::new(alloc, room, 16, failing)
            .ok()
            .ok_or("memory")?;
        assert_eq!(rt; put_all(&mut sink, text), all);
        assert_eq!(rt; sink.bytes(), &text[..held]);
    }
    Ok(())
}

#[test]
fn a_sure_sink_takes_all(rt: HostRuntime) {
    assert!(rt; put_all(&mut SureSink::new(), &BYTES));
}

#[test]
fn a_reader_stumbles_once(rt: HostRuntime) -> Result<(), Fail> {
    let alloc = rt.alloc();
    let mut source = ReaderSource::new(Stumbling { calls: 0 });
    let got = take_all(alloc, &mut source, 16);
    assert_eq!(rt; got.map(|bytes| bytes.len()), Err(InputFault::ReadFault));
    let rest = take_all(alloc, &mut source, 16).ok().ok_or("the rest")?;
    assert_eq!(rt; rest.as_slice(), b"e".as_slice());
    Ok(())
}

#[test]
fn a_writer_halts_twice(rt: HostRuntime) {
    let mut sink = WriterSink::new(Halting { calls: 0 });
    assert_eq!(rt; sink.write(&BYTES), Giving::Took(2));
    assert_eq!(rt; sink.write(&BYTES), Giving::Failed);
    assert_eq!(rt; sink.write(&BYTES), Giving::Failed);
    assert!(rt; put_all(&mut sink, &BYTES));
}

// Four bytes come, and then the end at each call; whichever call fails, it alone does.
#[test]
fn a_source_fails_just_where_its_reader_does(rt: HostRuntime) {
    for failing in 1..8u8 {
        let mut source = ReaderSource::new(FailingReader {
            left: 4,
            calls: 0,
            failing,
        });
        for call in 1..8u8 {
            let answer = source.read(&mut [0; 3]);
            assert_eq!(rt;
                answer == Taking::Failed,
                call == failing,
                "call {call} of a reader that fails at {failing}"
            );
        }
    }
}

// So it is with a writer, of whatever length the pieces are.
#[test]
fn a_sink_fails_just_where_its_writer_does(rt: HostRuntime) {
    let bytes = [b'a'; 9_000];
    for failing in 1..6u8 {
        let mut sink = WriterSink::new(FailingWriter { calls: 0, failing });
        for (call, len) in [(1u8, 0), (2, 512), (3, 4_096), (4, 4_097), (5, 9_000)] {
            let want = if call == failing {
                Giving::Failed
            } else {
                Giving::Took(len)
            };
            assert_eq!(rt; sink.write(&bytes[..len]), want, "a piece of {len} bytes");
        }
    }
}
