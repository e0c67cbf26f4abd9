//! The lines of a text, counted.
ghost use Rattle.std.specs.Prelude.{◌≡◌, ◌≤◌, length};
ghost use Rattle.std.specs.List.{count_by};
ghost use Rattle.memchr.specs.Find.{is_byte};
ghost use Rattle.crewdesk_main.specs.Lines.{line_count};

// How many bytes are counted at once: no more than a byte can count.
const BLOCK: usize = 240;

// How many line feeds a block has. They are counted in a byte, and no branch depends on them, so that many are counted at once.
fn count_in(block: &[u8]) -> u8
    requires { length block.now ≤ BLOCK }
    ensures count { result ≡ count_by (is_byte 10) block.now }
    ensures few { result ≤ length block.now }
{
    let mut fed = 0;
    for byte in block {
        fed += u8::from(*byte == b'\n');
    }
    fed
}

// How many line feeds a text has.
fn count_fed(text: &[u8]) -> usize
    ensures count { result ≡ count_by (is_byte 10) text.now }
    ensures few { result ≤ length text.now }
{
    let mut fed = 0;
    let mut start = 0;
    while start < text.len() {
        let end = text.len().min(start.saturating_add(BLOCK));
        fed += usize::from(count_in(&text[start..end]));
        start = end;
    }
    fed
}

/// How many lines a text has. What is behind its last line feed is one where anything is.
pub fn count_lines(text: &[u8]) -> usize
    ensures { result ≡ line_count text.now }
{
    let fed = count_fed(text);
    match text.last() {
        Some(last) => fed + usize::from(*last != b'\n'),
        None => fed,
    }
}
