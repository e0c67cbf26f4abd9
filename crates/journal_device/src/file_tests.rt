use crate::failing_file::{Call, FailingFile};
use crate::{Device, JournalFile, NotOpened};
use desk_io::{InputFault, take_all};
use std::env::{self, Env};
use std::fs::{self, Files};
use std::io::{self, ErrorKind};
use std::os::fd::AsRawFd;
use std::test::Fail;

// The name of a file that is not there.
fn file_for<R: Files + Env + AllocGlobal>(rt: &R, test: &str) -> io::Result<String> {
    let folder = env::temp_dir(rt)?;
    let name = format!(in rt.alloc(); "{}/journal_device_{test}", folder.display())?;
    let _ = fs::remove_file(rt, name.as_str());
    Ok(name)
}

#[test]
fn a_file_goes_on_where_it_was_left(rt: HostRuntime) -> Result<(), Fail> {
    let alloc = rt.alloc();
    let name = file_for(&rt, "goes_on")?;
    for (found, line) in [("", "one\n"), ("one\n", "two\n"), ("one\ntwo\n", "3\n")] {
        let Ok(mut journal) = JournalFile::open(&rt, name.as_str()) else {
            return Err(ErrorKind::Other.into());
        };
        let bytes = take_all(alloc, &mut journal, found.len());
        assert!(rt;
            bytes.is_ok_and(|bytes| bytes.as_slice() == found.as_bytes()),
            "before {line}"
        );
        assert!(rt;
            journal.append(line.as_bytes()) && journal.sync(),
            "at {line}"
        );
        let other = JournalFile::open(&rt, name.as_str());
        assert!(rt; matches!(other, Err(NotOpened::InUse)), "at {line}");
    }
    assert_eq!(rt;
        fs::read(&rt, name.as_str())?.as_slice(),
        b"one\ntwo\n3\n".as_slice()
    );
    fs::remove_file(&rt, name.as_str())?;
    Ok(())
}

// It is cut, and goes on there. A cut beyond its end is a fault, after which nothing is told as kept.
#[test]
fn a_file_is_cut_and_goes_on_there(rt: HostRuntime) -> Result<(), Fail> {
    let name = file_for(&rt, "cut")?;
    fs::write(&rt, name.as_str(), b"one\ntwo\n".as_slice())?;
    let Ok(mut journal) = JournalFile::open(&rt, name.as_str()) else {
        return Err(ErrorKind::Other.into());
    };
    for (cut, is_cut, line, is_kept, whole) in [
        (8, true, "3\n", true, "one\ntwo\n3\n"),
        (5, true, "wo\n", true, "one\ntwo\n"),
        (4, true, "", true, "one\n"),
        (5, false, "4\n", false, "one\n4\n"),
        (4, false, "5\n", false, "one\n4\n5\n"),
    ] {
        assert_eq!(rt; journal.cut(cut), is_cut, "at the cut to {cut}");
        assert!(rt; journal.append(line.as_bytes()), "at the cut to {cut}");
        assert_eq!(rt; journal.sync(), is_kept, "at the cut to {cut}");
        let found = fs::read(&rt, name.as_str())?;
        assert_eq!(rt; found.as_slice(), whole.as_bytes(), "at the cut to {cut}");
    }
    fs::remove_file(&rt, name.as_str())?;
    Ok(())
}

#[test]
fn each_call_of_the_system_fails_in_turn(rt: HostRuntime) {
    let alloc = rt.alloc();
    for (failing, is_read, is_cut, is_appended, is_synced) in [
        (Call::None, true, true, true, true),
        (Call::Read, false, false, true, false),
        (Call::SetLen, true, false, true, false),
        (Call::SyncAll, true, false, true, false),
        (Call::Write, true, true, false, false),
        (Call::SyncData, true, true, true, false),
    ] {
        if let Ok(mut journal) = JournalFile::over(FailingFile { failing }) {
            let read = take_all(alloc, &mut journal, 0).map(|bytes| bytes.len());
            let wanted = if is_read {
                Ok(0)
            } else {
                Err(InputFault::ReadFault)
            };
            assert_eq!(rt; read, wanted, "at {failing:?}");
            assert_eq!(rt; journal.cut(8), is_cut, "at {failing:?}");
            assert_eq!(rt; journal.append(b"one\n"), is_appended, "at {failing:?}");
            assert_eq!(rt; journal.sync(), is_synced, "at {failing:?}");
        } else {
            panic!(rt; "not opened");
        }
    }
    let failing = Call::Metadata;
    let unknown = JournalFile::over(FailingFile { failing });
    assert!(rt; matches!(unknown, Err(NotOpened::Fault(_))));
    let failing = Call::Lock;
    let locked = JournalFile::over(FailingFile { failing });
    assert!(rt; matches!(locked, Err(NotOpened::Fault(_))));
}

#[test]
fn what_is_no_file_is_refused(rt: HostRuntime) -> Result<(), Fail> {
    let alloc = rt.alloc();
    let (reader, _writer) = io::pipe(&rt)?;
    let pipe = format!(in alloc; "/proc/self/fd/{}", reader.as_raw_fd())?;
    for name in ["/", ".", "/dev/null", pipe.as_str()] {
        let opened = JournalFile::open(&rt, name);
        assert!(rt; matches!(opened, Err(NotOpened::NotAFile)), "at {name}");
    }
    let nowhere = JournalFile::open(&rt, "/no such folder/journal");
    assert!(rt;
        matches!(nowhere, Err(NotOpened::Fault(fault)) if fault.kind() == ErrorKind::NotFound)
    );
    Ok(())
}

#[test]
fn a_refusal_has_its_words(rt: HostRuntime) -> Result<(), Fail> {
    let alloc = rt.alloc();
    let no_room = io::Error::from(ErrorKind::StorageFull);
    let said = format!(in alloc; "{no_room}")?;
    for (why, words) in [
        (NotOpened::InUse, "in use"),
        (NotOpened::NotAFile, "not a file"),
        (NotOpened::Fault(no_room), said.as_str()),
    ] {
        assert_eq!(rt; format!(in alloc; "{why}")?.as_str(), words);
    }
    Ok(())
}
