//! Texts whose records are their lines, cut at commas.
ghost use Rattle.std.specs.Prelude.{◌≡◌, ◌≢◌, ◌<◌, ◌∷◌, [], length, IsTrue, MatchOption};
ghost use Rattle.std.specs.List.{list_all};
ghost use Rattle.desk_base.specs.Parts.{parts_by};
ghost use Rattle.record_rows.specs.Plain.{is_plain, is_plain_byte, plain_records, records_with};
ghost use Rattle.record_rows.specs.Rows.{records_of};

use memchr::{memchr, memchr2, memchr3};

/// Whether a text isn't empty, doesn't begin with the byte EF, as a byte order mark does, and has no quote and no end of a line. Then
/// it is one record, whose fields stand between its commas.
pub fn is_plain(text: &[u8]) -> bool
    ensures is { result ≡ is_plain text.now }
    ensures one { IsTrue result → records_of text.now ≡ parts_by 44 text.now ∷ [] }
{
    let Some(first) = text.first() else {
        return false;
    };
    *first != 0xEF && has_plain_bytes(text)
}

// Whether there is no quote and no end of a line.
fn has_plain_bytes(text: &[u8]) -> bool
    ensures { result ≡ list_all is_plain_byte text.now }
{
    memchr3(b'"', b'\n', b'\r', text).is_none()
}

/// Whether a text doesn't begin with the byte EF, as a byte order mark does, and has no quote and no carriage return. Then its lines
/// are its records, but for empty ones. Where it says no, nothing is said of the text: it only costs time.
pub(crate) fn has_plain_lines(text: &[u8]) -> bool
    ensures { IsTrue result → records_of text.now ≡ plain_records text.now }
{
    match text.first() {
        Some(first) => *first != 0xEF && memchr2(b'"', b'\r', text).is_none(),
        None => true,
    }
}

// The first line of a text, without its line feed, and what is behind that.
fn first_line(text: &[u8]) -> (&[u8], &[u8])
    ensures parts { plain_records text.now ≡ records_with result.0.now (plain_records result.1.now) }
    ensures shorter { text.now ≢ [] → length result.1.now < length text.now }
{
    match memchr(b'\n', text) {
        Some(at) => (&text[..at], &text[at + 1..]),
        None => (text, &[]),
    }
}

/// The first line that isn't empty, and what is behind it.
pub(crate) fn next_line(text: &[u8]) -> Option<(&[u8], &[u8])>
    ensures { MatchOption result (plain_records text.now ≡ [])
        (λ found. plain_records text.now ≡ parts_by 44 found.0.now ∷ plain_records found.1.now) }
{
    let mut left = text;
    while !left.is_empty() {
        let (line, behind) = first_line(left);
        if !line.is_empty() {
            return Some((line, behind));
        }
        left = behind;
    }
    None
}
