//! Lines of text, built piece by piece in a buffer of their own.
ghost use Rattle.std.specs.Prelude.{◌≡◌, ◌≤◌, ◌+◌, [], ◌∷◌, ◌++◌, length, decimal};
ghost use Rattle.arrayvec.specs.ArrayVec.{array_vec_len};

use arrayvec::ArrayVec;
use itoa::Buffer;

/// A line with its line feed, 512 bytes at most.
pub type LineText = ArrayVec<u8, 512>;

/// Adds a text at the end of the line.
pub fn put(line: &mut LineText, text: &[u8])
    requires { array_vec_len line.old + length text.now ≤ 512 }
    ensures text { line.new.items ≡ line.old.items ++ text.now }
    ensures len { array_vec_len line.new ≡ array_vec_len line.old + length text.now }
{
    line.try_extend_from_slice(text).unwrap();
}

/// Adds a byte at the end of the line.
pub fn put_byte(line: &mut LineText, byte: u8)
    requires { array_vec_len line.old + 1 ≤ 512 }
    ensures text { line.new.items ≡ line.old.items ++ byte ∷ [] }
    ensures len { array_vec_len line.new ≡ array_vec_len line.old + 1 }
{
    line.push(byte);
}

/// Adds a number in decimal, 10 digits at most.
pub(crate) fn put_number(line: &mut LineText, number: u32)
    requires { array_vec_len line.old + 10 ≤ 512 }
    ensures text { line.new.items ≡ line.old.items ++ decimal number }
    ensures len { array_vec_len line.new ≤ array_vec_len line.old + 10 }
{
    put(line, Buffer::new().format(number).as_bytes());
}

/// Adds a comma and a field.
pub(crate) fn put_field(line: &mut LineText, field: &[u8])
    requires { array_vec_len line.old + length field.now + 1 ≤ 512 }
    ensures text { line.new.items ≡ line.old.items ++ 44 ∷ field.now }
    ensures len { array_vec_len line.new ≡ array_vec_len line.old + length field.now + 1 }
{
    put_byte(line, b',');
    put(line, field);
}

/// Adds a comma and a number in decimal, 10 digits at most.
pub(crate) fn put_number_field(line: &mut LineText, number: u32)
    requires { array_vec_len line.old + 11 ≤ 512 }
    ensures text { line.new.items ≡ line.old.items ++ 44 ∷ decimal number }
    ensures len { array_vec_len line.new ≤ array_vec_len line.old + 11 }
{
    put_field(line, Buffer::new().format(number).as_bytes());
}
