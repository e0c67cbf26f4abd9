ghost use Rattle.std.specs.Prelude.{◌≡◌, ◌↔◌, ◌≤◌, ◌<◌, ◌^◌, ◌+◌, ℕ, true, IfSome, IfNone, IsNone};
ghost use Rattle.arrayvec.specs.ArrayVec.{array_vec_len};
ghost use Rattle.qualifications.specs.Quals.{has, lowest_missing, HasAll, HasNone, quals_text, with_number};

use arrayvec::ArrayVec;
use desk_base::{read_decimal, split_once};
use itoa::Buffer;
use std::marker::Model;

/// The text of a set of qualifications.
pub type QualsText = ArrayVec<u8, 192>;

/// A set of qualifications, each a number from 0 to 63. A contract sees the number whose bits they are.
#[derive(Clone, Copy, Debug, PartialEq, Eq, Hash)]
pub struct Quals(u64);

impl Model for Quals {
    ghost use Rattle.std.specs.Prelude.{ℕ, ◌<◌, ◌^◌};

    ghost Value = { ℕ };

    ghost view = { λ q. q.0 };

    ghost invariant = { λ q. q.0 < 2 ^ 64 };

    ghost inverse = { λ n. record { 0 = n } };
}

impl Quals {
    /// The bits of the numbers in the set, 0 to 63.
    pub fn bits(self) -> u64
        ensures value { result ≡ self }
        ensures range { result < 2 ^ 64 }
    {
        self.0
    }

    /// Whether the set has this number, 0 to 63.
    pub fn has(self, number: u8) -> bool
        requires { number ≤ 63 }
        ensures { result ≡ has self number }
    {
        (self.0 >> number) & 1 == 1
    }

    /// The lowest number that is asked and not in this set; `None` where all that is asked is.
    pub fn lowest_missing(self, asked: Quals) -> Option<u8>
        ensures value { result ≡ lowest_missing self asked }
        ensures none { IsNone result ↔ HasAll self asked }
        ensures most { IfSome result (λ number. number ≤ 63) }
    {
        let missing = asked.0 & !self.0;
        if missing == 0 {
            None
        } else {
            Some(missing.trailing_zeros() as u8)
        }
    }

    /// The set of the text: `-` for none, or rising numbers from 0 to 63 joined by `+`; `None` for any other.
    pub fn read(text: &[u8]) -> Option<Quals>
        ensures some { IfSome result (λ quals. text.now ≡ quals_text quals) }
        ensures only { (quals : ℕ) → quals < 2 ^ 64 → text.now ≡ quals_text quals
            → result ≡ Some quals }
    {
        Some(Quals(bits_of(text)?))
    }

    /// The text of the set.
    pub fn write(self) -> QualsText
        ensures { result.items ≡ quals_text self }
    {
        let mut text = ArrayVec::new();
        let mut from = 0;
        while let Some(number) = self.first_from(from) {
            put_number(&mut text, number);
            from = number + 1;
        }
        if text.is_empty() {
            text.push(b'-');
        }
        text
    }

    // The lowest number of the set that is not below this one.
    fn first_from(self, from: u8) -> Option<u8>
        requires { from ≤ 64 }
        ensures some { IfSome result (λ number. (from ≤ number) × (number ≤ 63)
            × (has self number ≡ true) × HasNone self from number) }
        ensures none { IfNone result (HasNone self from 64) }
    {
        if from > 63 {
            return None;
        }
        let left = self.0 >> from;
        if left == 0 {
            None
        } else {
            Some(from + left.trailing_zeros() as u8)
        }
    }
}

// Adds a number at the end, behind a `+` where it is not the first.
fn put_number(text: &mut QualsText, number: u8)
    requires number { number < 64 }
    requires room { array_vec_len text.old + 3 ≤ 192 }
    ensures text { text.new.items ≡ with_number text.old.items number }
    ensures len { array_vec_len text.new ≤ array_vec_len text.old + 3 }
{
    if !text.is_empty() {
        text.push(b'+');
    }
    text.try_extend_from_slice(Buffer::new().format(number).as_bytes())
        .unwrap();
}

// The bits of the numbers between the marks, each above those before it.
fn bits_of(text: &[u8]) -> Option<u64>
    ensures some { IfSome result (λ bits. text.now ≡ quals_text bits) }
    ensures only { (quals : ℕ) → quals < 2 ^ 64 → text.now ≡ quals_text quals
        → result ≡ Some quals }
{
    if text == b"-".as_slice() {
        return Some(0);
    }
    let mut bits = 0;
    let mut rest = Some(text);
    while let Some(parts) = rest {
        let (part, after) = split_once(parts, b'+');
        let number = read_decimal(part)?;
        if number > 63 {
            return None;
        }
        if bits >> number != 0 {
            return None;
        }
        bits |= 1 << number;
        rest = after;
    }
    Some(bits)
}
