ghost use Rattle.std.specs.Prelude.{◌≡◌, ◌<◌, ◌∷◌, length, IfSome, IfNone};
ghost use Rattle.std.specs.Option.{option_copied};
ghost use Rattle.desk_base.specs.Parts.{parts_by, parts_after};

/// What stands before the first mark, and what stands after it; `None` where there is no mark.
pub fn split_once(bytes: &[u8], mark: u8) -> (&[u8], Option<&[u8]>)
    ensures parts { parts_by mark bytes.now
        ≡ result.0.now ∷ parts_after mark (option_copied result.1) }
    ensures shorter { IfSome result.1 (λ after. length after.now < length bytes.now) }
    ensures whole { IfNone result.1 (result.0.now ≡ bytes.now) }
{
    match bytes.iter().position(|b| *b == mark) {
        Some(at) => (&bytes[..at], Some(&bytes[at + 1..])),
        None => (bytes, None),
    }
}
