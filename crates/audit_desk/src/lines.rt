//! The first line of a text.
ghost use Rattle.std.specs.Prelude.{◌≡◌, ◌≢◌, ◌<◌, ◌==◌, ◌∷◌, ◌++◌, ℕ, List, [], false, length};
ghost use Rattle.std.specs.List.{All};
ghost use Rattle.line_writer.specs.Line.{IsLine};

use memchr::memchr;

/// The first line of a text, with its line feed, and what is behind it.
pub fn first_line(text: &[u8]) -> (&[u8], &[u8])
    ensures parts { text.now ≡ result.0.now ++ result.1.now }
    ensures line { (line rest : List ℕ) → IsLine line → text.now ≡ line ++ rest
        → (result.0.now ≡ line) × (result.1.now ≡ rest) }
    ensures fed { (front rest : List ℕ) → All (λ b. (b == 10) ≡ false) front → text.now ≡ front ++ 10 ∷ rest
        → (result.0.now ≡ front ++ 10 ∷ []) × (result.1.now ≡ rest) }
    ensures last { All (λ b. (b == 10) ≡ false) text.now → result.1.now ≡ [] }
    ensures shorter { text.now ≢ [] → length result.1.now < length text.now }
{
    match memchr(b'\n', text) {
        Some(at) => text.split_at(at + 1),
        None => (text, &[]),
    }
}
