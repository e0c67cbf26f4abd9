//! From when on nothing bars somebody from a vacancy, as a line.
ghost use Rattle.std.specs.Prelude.{◌≡◌, ◌≤◌, ◌+◌, ◌++◌};
ghost use Rattle.arrayvec.specs.ArrayVec.{array_vec_len};
ghost use Rattle.day_replay.specs.Forecast.{earliest_line, earliest_text};

use earliest_minute::Earliest;
use line_writer::{LineText, put, put_bar, put_byte, put_late};

/// The line that says from when on nothing bars a person from a vacancy, or why not.
pub(crate) fn write_earliest(earliest: &Earliest) -> LineText
    ensures { result.items ≡ earliest_line earliest.now }
{
    let mut line = LineText::new();
    put_earliest(&mut line, earliest);
    put_byte(&mut line, b'\n');
    line
}

// Adds what it says, 47 bytes at most.
fn put_earliest(line: &mut LineText, earliest: &Earliest)
    requires { array_vec_len line.old + 47 ≤ 512 }
    ensures text { line.new.items ≡ line.old.items ++ earliest_text earliest.now }
    ensures len { array_vec_len line.new ≤ array_vec_len line.old + 47 }
{
    match earliest {
        Earliest::UnknownVacancy => put(line, b"unknown vacancy"),
        Earliest::UnknownPerson => put(line, b"unknown person"),
        Earliest::NotListed => put(line, b"not listed"),
        Earliest::Lapsed(report) => {
            put(line, b"lapsed ");
            put_late(line, *report);
        }
        Earliest::Clear(minute) => {
            put(line, b"clear ");
            put(line, &minute.write());
        }
        Earliest::Barred(bar) => {
            put(line, b"barred ");
            put_bar(line, bar);
        }
    }
}
