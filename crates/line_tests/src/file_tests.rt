//! A line over readers and writers in memory.
ghost use Rattle.std.specs.Prelude.{◌<◌};

use caller_lines::{CallerLine, FileLine, Heard, LineBuf};
use desk_io::{MemorySource, Source, Taking};
use std::alloc::Global;
use std::io::{self, ErrorKind, Read, Write};
use std::test::Fail;

// A reader of what a source gives.
#[derive(Drop)]
struct Pieces {
    source: MemorySource,
}

impl Read for Pieces {
    fn read(&mut self, buf: &mut [u8]) -> io::Result<usize> {
        match self.source.read(buf) {
            Taking::Got(count) => Ok(count),
            Taking::End => Ok(0),
            Taking::Failed => Err(ErrorKind::Other.into()),
        }
    }
}

// A reader of so many bytes `a`, and a line feed behind them.
#[derive(Drop)]
struct Long {
    left: usize,
}

impl Read for Long {
    fn read(&mut self, buf: &mut [u8]) -> io::Result<usize> {
        let count = self.left.min(buf.len());
        self.left -= count;
        buf[..count].fill(b'a');
        match buf {
            [first, ..] if count == 0 => {
                *first = b'\n';
                Ok(1)
            }
            _ => Ok(count),
        }
    }
}

// A writer that takes three bytes at a time, and no others than these.
#[derive(Drop)]
struct Expecting {
    left: &'static [u8],
}

impl Write for Expecting {
    fn write(&mut self, buf: &[u8]) -> io::Result<usize> {
        let count = buf.len().min(3);
        match self.left.strip_prefix(&buf[..count]) {
            None => Err(ErrorKind::Other.into()),
            Some(left) => {
                self.left = left;
                Ok(count)
            }
        }
    }

    fn flush(&mut self) -> io::Result<()> {
        Ok(())
    }
}

// A writer that takes all, and fails at one of its calls.
#[derive(Drop)]
struct Failing {
    calls: u8,
    failing: u8,
}

impl Write for Failing {
    fn write(&mut self, buf: &[u8]) -> io::Result<usize> {
        self.calls = self.calls.saturating_add(1);
        if self.calls == self.failing {
            return Err(ErrorKind::Other.into());
        }
        Ok(buf.len())
    }

    fn flush(&mut self) -> io::Result<()> {
        Ok(())
    }
}

const NOBODY: Expecting = Expecting { left: b"" };

// A line of these bytes, in pieces of this size; the reader fails at this call.
fn line_of(bytes: Vec<u8>, piece: usize, failing: Vec<u64>) -> FileLine<Pieces, Expecting>
    requires { 0 < piece }
{
    let source = MemorySource::new(bytes, piece, failing);
    FileLine::new(Some(Pieces { source }), Some(NOBODY))
}

// A line of three bytes, one of 512, one of 513, one of 4,097, an empty one, and four bytes at the end.
fn lines(alloc: Global) -> Result<Vec<u8>, Fail> {
    let mut bytes = b"one\n".to_vec(alloc)?;
    bytes.extend_from_slice(&[b'a'; 512])?;
    bytes.extend_from_slice(b"\n")?;
    bytes.extend_from_slice(&[b'b'; 513])?;
    bytes.extend_from_slice(b"\n")?;
    bytes.extend_from_slice(&[b'c'; 4_097])?;
    bytes.extend_from_slice(b"\n\nlast")?;
    Ok(bytes)
}

// Whatever the pieces, the lines are the same.
#[test]
fn lines_go_over_the_ends_of_pieces(rt: HostRuntime) -> Result<(), Fail> {
    let alloc = rt.alloc();
    for piece in [1, 3, 512, 10_000] {
        let mut line = line_of(lines(alloc)?, piece, Vec::new(alloc));
        let mut into = LineBuf::new();
        for (heard, text) in [
            (Heard::Line, b"one".as_slice()),
            (Heard::Line, [b'a'; 512].as_slice()),
            (Heard::TooLong, b"".as_slice()),
            (Heard::TooLong, b"".as_slice()),
            (Heard::Line, b"".as_slice()),
            (Heard::Line, b"last".as_slice()),
            (Heard::End, b"".as_slice()),
            (Heard::End, b"".as_slice()),
        ] {
            assert_eq!(rt; line.next(&mut into), heard, "in pieces of {piece}");
            assert!(rt; heard == Heard::TooLong || into.as_slice() == text);
        }
    }
    Ok(())
}

// Four bytes at a time, eleven bytes come at three calls, and the end at the fourth: whichever fails, one call of the line does, and
// none before it.
#[test]
fn a_line_fails_just_where_its_reader_does(rt: HostRuntime) -> Result<(), Fail> {
    let alloc = rt.alloc();
    for (failing, before) in [(1, 0), (2, 1), (3, 2), (4, 2)] {
        let bytes = b"one\ntwo\nend".to_vec(alloc)?;
        let mut line = line_of(bytes, 4, vec![in alloc; failing]?);
        let mut into = LineBuf::new();
        for call in 0..5 {
            let failed = line.next(&mut into) == Heard::Failed;
            assert_eq!(rt;
                failed,
                call == before,
                "call {call} over a reader that fails at {failing}"
            );
        }
    }
    Ok(())
}

// A text of 512 bytes and one of 513 are written at once, and none fails but where the writer does.
#[test]
fn a_put_fails_just_where_its_writer_does(rt: HostRuntime) {
    let text = [b'a'; 513];
    for failing in 1..5u8 {
        let writer = Failing { calls: 0, failing };
        let mut line = FileLine::new(Some(Long { left: 1 }), Some(writer));
        for (call, len) in [(1u8, 1), (2, 512), (3, 513)] {
            assert_eq!(rt;
                line.put(&text[..len]),
                call != failing,
                "a put of {len} bytes"
            );
        }
    }
}

#[test]
fn a_reader_fails_between_two_lines(rt: HostRuntime) -> Result<(), Fail> {
    let alloc = rt.alloc();
    let bytes = b"one\ntwo\n".to_vec(alloc)?;
    let mut line = line_of(bytes, 4, vec![in alloc; 2]?);
    let mut into = LineBuf::new();
    assert_eq!(rt; line.next(&mut into), Heard::Line);
    assert_eq!(rt; line.next(&mut into), Heard::Failed);
    assert_eq!(rt; line.next(&mut into), Heard::Line);
    assert_eq!(rt; into.as_slice(), b"two".as_slice());
    assert_eq!(rt; line.next(&mut into), Heard::End);
    Ok(())
}

#[test]
fn a_line_without_a_file_fails_at_each_call(rt: HostRuntime) {
    let mut into = LineBuf::new();
    let mut deaf = FileLine::<Long, Expecting>::new(None, Some(NOBODY));
    assert_eq!(rt; deaf.next(&mut into), Heard::Failed);
    assert!(rt; !deaf.put(b""));
    let mut dumb = FileLine::<Long, Expecting>::new(Some(Long { left: 1 }), None);
    assert_eq!(rt; dumb.next(&mut into), Heard::Failed);
    assert!(rt; !dumb.put(b""));
    assert_eq!(rt; dumb.put_count(), 0);
    assert!(rt; !dumb.was_put(1, b""));
}

// Where no line is held, each text is written at once. The writer takes `done` and `end`, and nothing else.
#[test]
fn each_text_is_written_at_once(rt: HostRuntime) {
    let writer = Expecting {
        left: b"done\nend\n",
    };
    let mut line = FileLine::new(Some(Long { left: 1 }), Some(writer));
    assert!(rt; line.put(b"done\n"));
    assert!(rt; !line.put(b"x"));
    assert!(rt; line.put(b"end\n"));
    assert!(rt; !line.put(b"end\n"));
    assert_eq!(rt; line.put_count(), 0);
    assert!(rt; !line.was_put(1, b"done\n"));
}

// Of `one`, `two` and `end`, which are read together, the replies to the first two wait, and are written before more is read. The
// writer takes just these.
#[test]
fn replies_to_lines_that_were_read_together_are_written_together(
    rt: HostRuntime,
) -> Result<(), Fail> {
    let alloc = rt.alloc();
    let source = MemorySource::new(b"one\ntwo\nend".to_vec(alloc)?, 100, Vec::new(alloc));
    let writer = Expecting { left: b"1\n2\n" };
    let mut line = FileLine::new(Some(Pieces { source }), Some(writer));
    let mut into = LineBuf::new();
    for (text, reply) in [(b"one", b"1\n"), (b"two", b"2\n")] {
        assert_eq!(rt; line.next(&mut into), Heard::Line);
        assert_eq!(rt; into.as_slice(), text.as_slice());
        assert!(rt; line.put(reply));
    }
    assert_eq!(rt; line.next(&mut into), Heard::Line);
    assert!(rt; !line.put(b"3\n"));
    assert_eq!(rt; line.next(&mut into), Heard::End);
    Ok(())
}

// What waits fails where it is written: when more is read, or at the end; and then it is gone.
#[test]
fn a_reply_that_waits_fails_where_it_is_written(rt: HostRuntime) -> Result<(), Fail> {
    let alloc = rt.alloc();
    for ends in [false, true] {
        let source = MemorySource::new(b"one\ntwo".to_vec(alloc)?, 100, Vec::new(alloc));
        let writer = Failing {
            calls: 0,
            failing: 1,
        };
        let mut line = FileLine::new(Some(Pieces { source }), Some(writer));
        let mut into = LineBuf::new();
        assert_eq!(rt; line.next(&mut into), Heard::Line);
        assert!(rt; line.put(b"1\n"));
        let fails = if ends {
            !line.finish()
        } else {
            line.next(&mut into) == Heard::Failed
        };
        assert!(rt; fails, "at the end: {ends}");
        assert!(rt; line.finish());
    }
    Ok(())
}

#[test]
fn the_longest_line_that_is_skipped(rt: HostRuntime) {
    for (left, want) in [(16_777_216, Heard::TooLong), (16_777_217, Heard::Failed)] {
        let mut line = FileLine::new(Some(Long { left }), Some(NOBODY));
        assert_eq!(rt; line.next(&mut LineBuf::new()), want, "of {left} bytes");
    }
}
