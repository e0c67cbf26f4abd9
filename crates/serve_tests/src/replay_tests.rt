//! A day file that is replayed into a sink that fails.
use day_replay::{DayForm, replay_day};
use desk_io::{MemorySink, MemorySource, Status};
use std::alloc::Global;
use std::test::Fail;

// A first offer.
const DAY: &[u8] = b"\
2024-03-04 00:00,open,2024-03,1,15
2024-03-04 00:01,enrol,101,E,HOM,-
2024-03-04 00:01,board,P1,pool,HOM
2024-03-04 00:02,list,101,P1
2024-03-04 00:03,vacancy,12,E,-,HOM,2024-03-04 08:00,600,0,P1
2024-03-04 00:04,next,12
";

// Its journal.
const JOURNAL: &[u8] = b"\
2024-03-04 00:00,open,2024-03,1,15
0|2024-03-04 00:01,enrol,101,E,HOM,-|2024-03-04 00:01|done
0|2024-03-04 00:01,board,P1,pool,HOM|2024-03-04 00:01|done
0|2024-03-04 00:02,list,101,P1|2024-03-04 00:02|done
0|2024-03-04 00:03,vacancy,12,E,-,HOM,2024-03-04 08:00,600,0,P1|2024-03-04 00:03|done
0|2024-03-04 00:04,next,12|2024-03-04 00:04|offered 101 P1 1
";

// How many bytes the sink takes at once.
const PIECE: usize = 16;

// The status, and what a sink that fails at the call of this number, from 1, has of the journal.
fn replayed(alloc: Global, failing: u64) -> Option<(Status, MemorySink)> {
    let mut source = MemorySource::new(DAY.to_vec(alloc).ok()?, PIECE, Vec::new(alloc));
    let write_fails = vec![in alloc; failing].ok()?;
    let mut sink = MemorySink::new(alloc, 1_000, PIECE, write_fails).ok()?;
    let status = replay_day(alloc, DayForm::Replay, &mut source, &mut sink);
    Some((status, sink))
}

#[test]
fn a_sink_that_fails_at_each_call(rt: HostRuntime) -> Result<(), Fail> {
    let alloc = rt.alloc();
    let calls = JOURNAL.len().div_ceil(PIECE);
    for failing in 1..=calls {
        let (status, sink) = replayed(alloc, failing as u64).ok_or("no memory")?;
        assert!(rt; status == Status::WriteFault);
        let taken = (failing - 1) * PIECE;
        assert!(rt; sink.bytes().len() == taken && JOURNAL.starts_with(sink.bytes()));
    }
    let (status, sink) = replayed(alloc, calls as u64 + 1).ok_or("no memory")?;
    assert!(rt; status == Status::Fine && sink.bytes() == JOURNAL);
    Ok(())
}
