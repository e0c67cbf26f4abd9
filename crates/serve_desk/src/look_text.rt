//! The texts that answer looks at boards.
ghost use Rattle.std.specs.Prelude.{◌≡◌, ◌≤◌, ◌+◌, ◌++◌};
ghost use Rattle.arrayvec.specs.ArrayVec.{array_vec_len};
ghost use Rattle.serve_desk.specs.Looks.{behind, look_text, spot_text};

use board_window::{Look, Spot};
use itoa::Buffer;
use line_writer::{LineText, put, put_byte};

/// The text for a look: how many entries were seen, and the person at the position; or that nobody stands there, with the number of
/// persons on the board; or that the code is no board.
pub(crate) fn write_look(look: &Look) -> LineText
    ensures { result.items ≡ look_text look.now.seen look.now.what }
{
    let mut text = LineText::new();
    put(&mut text, b"look ");
    put(&mut text, Buffer::new().format(look.seen).as_bytes());
    put_byte(&mut text, b' ');
    put_spot(&mut text, look.what);
    put_byte(&mut text, b'\n');
    text
}

// Adds what stands at a position, 12 bytes at most.
fn put_spot(text: &mut LineText, what: Spot)
    requires { array_vec_len text.old + 12 ≤ 512 }
    ensures text { text.new.items ≡ text.old.items ++ spot_text what }
    ensures len { array_vec_len text.new ≤ array_vec_len text.old + 12 }
{
    match what {
        Spot::Person(person) => put(text, Buffer::new().format(person.number()).as_bytes()),
        Spot::NoOne { length } => {
            put(text, b"no one ");
            put(text, Buffer::new().format(length).as_bytes());
        }
        Spot::NoBoard => put(text, b"no board"),
    }
}

/// The text that tells how many entries what is shown is behind.
pub(crate) fn write_behind(count: u32) -> LineText
    ensures { result.items ≡ behind count }
{
    let mut text = LineText::new();
    put(&mut text, b"behind ");
    put(&mut text, Buffer::new().format(count).as_bytes());
    put_byte(&mut text, b'\n');
    text
}
