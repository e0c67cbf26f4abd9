ghost use Rattle.std.specs.Prelude.{◌≡◌, ℕ, ◌≤◌, List, length};
ghost use Rattle.std.specs.Option.{SomeIff};
ghost use Rattle.std.specs.List.{list_all};
ghost use Rattle.desk_base.specs.Code.{IsCode, is_code_byte, padded_code, code_word};

use std::hash::{Hash, Hasher};
use std::marker::Model;

/// The code of a board, a place or a home: 1 to 6 bytes of A to Z and 0 to 9. A contract sees its text.
#[derive(Clone, Copy, Debug)]
pub struct Code {
    // One byte more than a code has, so that it is copied as a word.
    bytes: [u8; 7],
    len: u8,
}

impl Model for Code {
    ghost use Rattle.std.specs.Prelude.{ℕ, List};

    ghost Value = { List ℕ };

    ghost use Rattle.desk_base.specs.CodeInside.{code_text, KeepsCode, code_inside, code_inside-code_text};

    ghost view = { code_text };

    ghost invariant = { KeepsCode };

    ghost inverse = { code_inside };

    ghost inverse_ok = { code_inside-code_text };
}

impl PartialEq for Code {
    ghost use Rattle.std.specs.Str.{bytes_eq};
    ghost use Rattle.std.specs.Cmp.{partial_equiv_from_equiv};
    ghost use Rattle.std.proofs.lemmas.Cmp.{nat_list_eq_equiv};

    ghost eq = { bytes_eq };

    ghost laws = { partial_equiv_from_equiv nat_list_eq_equiv };

    fn eq(&self, other: &Code) -> bool {
        self.word() == other.word()
    }
}

impl Eq for Code {
    ghost use Rattle.std.proofs.lemmas.Cmp.{nat_list_eq_equiv};

    ghost laws = { nat_list_eq_equiv };
}

impl Hash for Code {
    ghost use Rattle.std.specs.Prelude.{[], ◌∷◌};
    ghost use Rattle.std.proofs.Common.{ap};
    ghost use Rattle.std.proofs.lemmas.Slice.Eq.{bytes_eq-Decides};

    ghost hash_input = { λ code. code ∷ [] };

    ghost respects_eq = { λ x y same. ap (λ code. code ∷ []) ((bytes_eq-Decides x y).0 same) };

    fn hash<H: Hasher>(&self, state: &mut H) {
        state.write(self.text());
    }
}

impl Code {
    /// The code of that text; `None` where it is no code.
    pub fn read(text: &[u8]) -> Option<Code>
        ensures { SomeIff result (IsCode text.now) text.now }
    {
        if text.len() < 1 || text.len() > 6 || !all_code_bytes(text) {
            return None;
        }
        Some(Code {
            bytes: padded(text),
            len: text.len() as u8,
        })
    }

    /// The text, 1 to 6 bytes.
    pub fn text(&self) -> &[u8]
        ensures value { result.now ≡ self.now }
        ensures range { IsCode self.now }
    {
        &self.bytes[..self.len as usize]
    }

    // The code as one number: that of its bytes, filled up with zeros, and its length.
    fn word(&self) -> u64
        ensures value { result ≡ code_word self.now }
        ensures code { IsCode self.now }
    {
        let [a, b, c, d, e, f, g] = self.bytes;
        u64::from_le_bytes([a, b, c, d, e, f, g, self.len])
    }

    /// A number by which hints of where this code stands are kept. Nothing rests on it: several codes may share one.
    pub fn hint_number(&self) -> u32 {
        (self.word().wrapping_mul(11_400_714_819_323_198_485) >> 40) as u32
    }
}

fn all_code_bytes(text: &[u8]) -> bool
    ensures { result ≡ list_all is_code_byte text.now }
{
    text.iter().all(|b| (*b >= b'A' && *b <= b'Z') || (*b >= b'0' && *b <= b'9'))
}

// The text, filled up with zeros.
fn padded(text: &[u8]) -> [u8; 7]
    requires { length text.now ≤ 7 }
    ensures { result ≡ padded_code text.now }
{
    let mut bytes = [0; 7];
    bytes[..text.len()].copy_from_slice(text);
    bytes
}
