ghost use Rattle.std.specs.Prelude.{◌≡◌, ◌≢◌, ◌+◌, ◌<◌, ◌≤◌, IfSome, IfNone, length};
ghost use Rattle.byte_marks.specs.Marks.{IsFirstFrom, IsNowhere, AreMarked, marks_from};

use crate::lanes::{LANES, marks_at};
use std::marker::Model;

/// The indexes at which a mark stands in a text, one after another. A contract sees the text, the mark, and from which index on they are
/// still to be told.
pub struct Marks<'a> {
    text: &'a [u8],
    mark: u8,
    from: usize,
    // Which of sixteen bytes are marks that are still to be told, as bits, and where these bytes begin.
    mask: u64,
    begin: usize,
}

impl Drop for Marks<'_> {
    fn drop(self) {
        let Self {
            text: _,
            mark: _,
            from: _,
            mask: _,
            begin: _,
        } = self;
    }
}

impl<'a> Model for Marks<'a> {
    ghost use Rattle.std.specs.Prelude.{◌≤◌, length};
    ghost use Rattle.byte_marks.specs.declared.lanes.TheConstants.{LANES};
    ghost use Rattle.byte_marks.specs.Marks.{MarksValue, marks_from, AreMarked};

    ghost Value = { MarksValue };

    ghost view = { λ m. marks_from m.text.now m.mark m.from };

    ghost invariant = { λ m. LANES ≤ length m.text.now → AreMarked m.text.now m.mark m.from m.begin m.mask };
}

impl<'a> Marks<'a> {
    /// Those of a text, from its front on.
    pub fn of(text: &'a [u8], mark: u8) -> Marks<'a>
        ensures { result ≡ marks_from text.now mark 0 }
    {
        let mask = if text.len() < LANES {
            0
        } else {
            marks_at(text, 0, mark)
        };
        Marks {
            text,
            mark,
            from: 0,
            begin: 0,
            mask,
        }
    }

    // From where on a mark is found among sixteen bytes, with these; or with none, and then none is left.
    fn next_mask(&self) -> (usize, u64)
        requires { LANES ≤ length self.now.text }
        ensures marked { AreMarked self.now.text self.now.mark self.now.from result.0 result.1 }
        ensures none { result.1 ≡ 0 → IsNowhere self.now.text self.now.mark self.now.from (length self.now.text) }
    {
        let mut begin = self.begin;
        let mut mask = self.mask;
        while mask == 0 && begin < self.text.len() - LANES {
            begin += LANES;
            mask = marks_at(self.text, begin, self.mark);
        }
        (begin, mask)
    }

    // The next index at which it stands in a text of fewer than sixteen bytes, or in any.
    fn next_byte(&self) -> Option<usize>
        ensures found { IfSome result (IsFirstFrom self.now.text self.now.mark self.now.from) }
        ensures none { IfNone result (IsNowhere self.now.text self.now.mark self.now.from (length self.now.text)) }
    {
        for at in self.from..self.text.len() {
            if self.text[at] == self.mark {
                return Some(at);
            }
        }
        None
    }

    /// The next index at which the mark stands; `None` where none is left.
    pub fn next(&mut self) -> Option<usize>
        ensures found { IfSome result (λ at. IsFirstFrom self.old.text self.old.mark self.old.from at
            × (self.new ≡ marks_from self.old.text self.old.mark (at + 1))) }
        ensures none { IfNone result (IsNowhere self.old.text self.old.mark self.old.from (length self.old.text)
            × (self.new ≡ self.old)) }
    {
        if self.text.len() < LANES {
            let at = self.next_byte()?;
            self.from = at + 1;
            return Some(at);
        }
        let (begin, mask) = self.next_mask();
        if mask == 0 {
            return None;
        }
        let lowest = mask.trailing_zeros();
        let at = begin + lowest as usize;
        self.from = at + 1;
        self.begin = begin;
        self.mask = mask & !(1 << lowest);
        Some(at)
    }
}
