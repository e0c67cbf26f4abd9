//! Texts taken apart.
ghost use Rattle.std.specs.Prelude.{◌≡◌, ◌≢◌, ◌==◌, ◌∷◌, ◌++◌, ℕ, List, false, IfSome, IfNone, IsSomeAnd};
ghost use Rattle.std.specs.List.{All};
ghost use Rattle.desk_base.specs.Minute.{minute_text};

use desk_base::split_once;
use memchr::memchr;

/// What stands before the first mark, and what stands behind it; `None` where there is no mark.
pub(crate) fn cut(text: &[u8], mark: u8) -> Option<(&[u8], &[u8])>
    ensures some { IfSome result (λ parts. text.now ≡ parts.0.now ++ mark ∷ parts.1.now) }
    ensures only { (front back : List ℕ) → All (λ b. (b == mark) ≡ false) front
        → text.now ≡ front ++ mark ∷ back
        → IsSomeAnd result (λ parts. (parts.0.now ≡ front) × (parts.1.now ≡ back)) }
{
    let at = memchr(mark, text)?;
    Some((&text[..at], &text[at + 1..]))
}

/// As `cut`, byte by byte: for a mark that stands among the first few bytes.
pub(crate) fn cut_near(text: &[u8], mark: u8) -> Option<(&[u8], &[u8])>
    ensures some { IfSome result (λ parts. text.now ≡ parts.0.now ++ mark ∷ parts.1.now) }
    ensures only { (front back : List ℕ) → All (λ b. (b == mark) ≡ false) front
        → text.now ≡ front ++ mark ∷ back
        → IsSomeAnd result (λ parts. (parts.0.now ≡ front) × (parts.1.now ≡ back)) }
{
    let (front, back) = split_once(text, mark);
    Some((front, back?))
}

/// What stands before a mark behind a minute's text, which has 16 bytes, and what stands behind the mark; `None` where it isn't there.
pub(crate) fn cut_minute(text: &[u8], mark: u8) -> Option<(&[u8], &[u8])>
    ensures some { IfSome result (λ parts. text.now ≡ parts.0.now ++ mark ∷ parts.1.now) }
    ensures only { (minute : ℕ) (back : List ℕ) → text.now ≡ minute_text minute ++ mark ∷ back
        → IsSomeAnd result (λ parts. (parts.0.now ≡ minute_text minute) × (parts.1.now ≡ back)) }
{
    let (minute, rest) = text.split_at_checked(16)?;
    Some((minute, behind(rest, &[mark])?))
}

/// What stands behind the head of a text; `None` where the text begins otherwise.
pub(crate) fn behind<'a>(text: &'a [u8], head: &[u8]) -> Option<&'a [u8]>
    ensures some { IfSome result (λ rest. text.now ≡ head.now ++ rest.now) }
    ensures none { IfNone result ((rest : List ℕ) → text.now ≢ head.now ++ rest) }
{
    text.strip_prefix(head)
}

/// What stands before the end of a text; `None` where the text ends otherwise.
pub(crate) fn before<'a>(text: &'a [u8], end: &[u8]) -> Option<&'a [u8]>
    ensures some { IfSome result (λ front. text.now ≡ front.now ++ end.now) }
    ensures none { IfNone result ((front : List ℕ) → text.now ≢ front ++ end.now) }
{
    text.strip_suffix(end)
}
