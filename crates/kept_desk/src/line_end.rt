ghost use Rattle.std.specs.Prelude.{◌≤◌, length, take};
ghost use Rattle.kept_desk.specs.WholeLines.{IsWhole};

/// How many bytes of a text stand up to its last line feed: those are whole lines, and behind them is what a stop cut off a line.
pub fn whole_lines(text: &[u8]) -> usize
    ensures within { result ≤ length text.now }
    ensures whole { IsWhole text.now (take result text.now) }
{
    let mut len = text.len();
    while len > 0 {
        if text[len - 1] == b'\n' {
            return len;
        }
        len -= 1;
    }
    0
}
