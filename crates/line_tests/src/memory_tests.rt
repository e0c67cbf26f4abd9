//! A line in memory.
use caller_lines::{CallerLine, Heard, LineBuf, MemoryLine};
use std::alloc::Global;
use std::test::Fail;

// A line of four lines, with room for seven bytes. The calls are counted from 1; the second and the eighth fail.
fn line_of_four(alloc: Global) -> Option<MemoryLine> {
    let lines = vec![in alloc;
        b"one".to_vec(alloc).ok()?,
        [b'a'; 512].to_vec(alloc).ok()?,
        [b'b'; 513].to_vec(alloc).ok()?,
        Vec::new(alloc),
    ]
    .ok()?;
    let failing = vec![in alloc; 2, 8].ok()?;
    MemoryLine::new(alloc, lines, failing, 7).ok()
}

// Whether the next call gives a line of this text, whatever stood where it is put.
fn gives(line: &mut MemoryLine, into: &mut LineBuf, text: &[u8]) -> bool {
    line.next(into) == Heard::Line && into.as_slice() == text
}

// What the line gives before its puts.
fn gives_its_lines(line: &mut MemoryLine, into: &mut LineBuf) -> bool {
    gives(line, into, b"one")
        && line.next(into) == Heard::Failed
        && gives(line, into, [b'a'; 512].as_slice())
        && line.next(into) == Heard::TooLong
}

// And what it takes: the eighth call fails, and five bytes leave room for two.
fn takes_its_puts(line: &mut MemoryLine) -> bool {
    line.put(b"done\n")
        && line.put(b"no")
        && !line.put(b"x")
        && !line.put(b"")
        && line.put(b"")
        && line.put_count() == 3
}

// And what it gives behind them.
fn ends(line: &mut MemoryLine, into: &mut LineBuf) -> bool {
    gives(line, into, b"") && line.next(into) == Heard::End && line.next(into) == Heard::End
}

// Which text each put was.
fn tells_its_puts(line: &MemoryLine) -> bool {
    !line.was_put(0, b"")
        && line.was_put(1, b"done\n")
        && !line.was_put(1, b"no")
        && line.was_put(2, b"no")
        && line.was_put(3, b"")
        && !line.was_put(4, b"")
}

#[test]
fn a_line_gives_its_lines_and_keeps_its_puts(rt: HostRuntime) -> Result<(), Fail> {
    let mut line = line_of_four(rt.alloc()).ok_or("memory")?;
    let mut into = LineBuf::new();
    assert!(rt; gives_its_lines(&mut line, &mut into));
    assert!(rt; takes_its_puts(&mut line));
    assert!(rt; ends(&mut line, &mut into));
    assert!(rt; tells_its_puts(&line));
    Ok(())
}

#[test]
fn there_is_room_for_as_many_puts(rt: HostRuntime) -> Result<(), Fail> {
    let alloc = rt.alloc();
    let mut line = MemoryLine::new(alloc, Vec::new(alloc), Vec::new(alloc), 2)
        .ok()
        .ok_or("memory")?;
    assert!(rt; line.put(b"") && line.put(b"") && !line.put(b""));
    assert_eq!(rt; line.put_count(), 2);
    Ok(())
}
