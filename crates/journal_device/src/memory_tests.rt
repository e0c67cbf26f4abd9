use crate::{Device, MemoryDevice};
use std::test::Fail;

// A line is kept where it was appended and synced.
fn keep<D: Device>(device: &mut D, line: &[u8]) -> bool {
    device.append(line) && device.sync()
}

// Of the four calls one fails: a line is appended and synced, and another is.
#[test]
fn each_call_fails_in_turn(rt: HostRuntime) -> Result<(), Fail> {
    let alloc = rt.alloc();
    for (failing, torn, answers, held, kept) in [
        (0, 0, [true, true, true, true], "one\ntwo\n", "one\ntwo\n"),
        (1, 0, [false, true, true, true], "two\n", "two\n"),
        (1, 3, [false, true, true, true], "onetwo\n", "onetwo\n"),
        (1, 9, [false, true, true, true], "one\ntwo\n", "one\ntwo\n"),
        (2, 3, [true, false, true, true], "one\ntwo\n", "one\ntwo\n"),
        (3, 0, [true, true, false, true], "one\n", "one\n"),
        (3, 2, [true, true, false, true], "one\ntw", "one\ntw"),
        (4, 2, [true, true, true, false], "one\ntwo\n", "one\n"),
    ] {
        let mut device = MemoryDevice::new(alloc, 64, torn, vec![in alloc; failing]?)?;
        let first = device.append(b"one\n");
        let second = device.sync();
        let third = device.append(b"two\n");
        let fourth = device.sync();
        assert_eq!(rt;
            [first, second, third, fourth],
            answers,
            "at call {failing}"
        );
        assert_eq!(rt; device.held(), held.as_bytes(), "at call {failing}");
        assert_eq!(rt; device.left(0), kept.as_bytes(), "at call {failing}");
    }
    Ok(())
}

#[test]
fn a_stop_leaves_any_front_of_what_was_not_synced(rt: HostRuntime) -> Result<(), Fail> {
    let alloc = rt.alloc();
    let mut device = MemoryDevice::new(alloc, 64, 0, Vec::new(alloc))?;
    assert!(rt; keep(&mut device, b"one\n"));
    assert!(rt; device.append(b"two\n"));
    for (unsynced, left) in [
        (0, "one\n"),
        (1, "one\nt"),
        (2, "one\ntw"),
        (3, "one\ntwo"),
        (4, "one\ntwo\n"),
        (5, "one\ntwo\n"),
        (usize::MAX, "one\ntwo\n"),
    ] {
        assert_eq!(rt;
            device.left(unsynced),
            left.as_bytes(),
            "with {unsynced} more"
        );
    }
    Ok(())
}

#[test]
fn a_full_device_takes_no_more_than_it_has_room_for(rt: HostRuntime) -> Result<(), Fail> {
    let alloc = rt.alloc();
    let mut device = MemoryDevice::new(alloc, 6, 9, Vec::new(alloc))?;
    assert!(rt; device.append(b"one\n"));
    assert!(rt; !device.append(b"two\n"));
    assert_eq!(rt; device.held(), b"one\ntw".as_slice());
    assert!(rt; !device.append(b"o"));
    assert!(rt; device.append(b""));
    assert!(rt; device.sync());
    assert_eq!(rt; device.left(0), b"one\ntw".as_slice());
    Ok(())
}
