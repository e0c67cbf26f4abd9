//! A line with line feeds in it is one record or none.
use command_parser::{ReadFail, read_command};
use std::alloc::Global;

// Whether the line is a command (`None`), or fails so.
fn fails_so(alloc: Global, line: &[u8], fail: Option<ReadFail>) -> bool {
    match read_command(alloc, line) {
        Ok(_) => fail.is_none(),
        Err(found) => fail == Some(found),
    }
}

#[test]
fn lines_with_line_feeds(rt: HostRuntime) {
    let one = b"\n\n2024-03-04 00:01,\"next\",12\n\n";
    assert!(rt; fails_so(rt.alloc(), one, None));
    let two: [&[u8]; 2] = [
        b"2024-03-04 00:01,next,12\n2024-03-04 00:01,next,12",
        b"unlist\nunlist",
    ];
    for line in two {
        assert!(rt; fails_so(rt.alloc(), line, Some(ReadFail::Malformed(0))));
    }
}
