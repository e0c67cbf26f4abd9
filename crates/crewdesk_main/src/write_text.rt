ghost use Rattle.std.specs.Prelude.{◌≡◌, ◌≢◌, ◌≤◌};
ghost use Rattle.crewdesk_main.specs.Texts.{EndsPrint};

use desk_io::{Sink, Status, put_all};

/// Writes a text to the sink: `Fine`, or `WriteFault` where the sink had a fault and has a front of the text.
pub fn write_text<K: Sink>(sink: &mut K, text: &[u8]) -> Status
    ensures prints { EndsPrint result text.now
        (K.held sink.old) (K.held sink.new) (K.faults sink.old) (K.faults sink.new) }
    ensures write_count { result ≢ Status.WriteFault → K.faults sink.new ≡ K.faults sink.old }
    ensures faults_grow { K.faults sink.old ≤ K.faults sink.new }
{
    if put_all(sink, text) {
        Status::Fine
    } else {
        Status::WriteFault
    }
}
