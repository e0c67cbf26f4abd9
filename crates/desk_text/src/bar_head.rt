ghost use Rattle.std.specs.Prelude.{◌≡◌, ◌≢◌, ◌++◌, ℕ, List, IfSome, IfNone};
ghost use Rattle.desk_text.specs.Heads.{bar_head_text};
ghost use Rattle.desk_text.specs.declared.bar_head.BarHead.{BarHead as BarHeadValue};

use crate::cut::behind;

/// What the text of a bar that keeps something begins with: none begins another.
#[derive(Clone, Copy, Debug, PartialEq, Eq)]
pub(crate) enum BarHead {
    Assigned,
    OnOffer,
    Elsewhere,
    OtherCraft,
    Lacks,
    Held,
    Rest,
    MoreRest,
    Undisturbed,
    SixDays,
    SevenDays,
    MonthHours,
    LimboHours,
}

impl BarHead {
    /// The head of a text, and what stands behind it; `None` where the text begins with no head.
    pub(crate) fn split(text: &[u8]) -> Option<(BarHead, &[u8])>
        ensures some { IfSome result (λ found.
            text.now ≡ bar_head_text found.0 ++ found.1.now) }
        ensures none { IfNone result ((head : BarHeadValue) (rest : List ℕ)
            → text.now ≢ bar_head_text head ++ rest) }
    {
        if let Some(rest) = behind(text, b"B2 assigned ") {
            Some((BarHead::Assigned, rest))
        } else if let Some(rest) = behind(text, b"B3 ") {
            Some((BarHead::OnOffer, rest))
        } else if let Some(rest) = behind(text, b"B4 ") {
            Some((BarHead::Elsewhere, rest))
        } else if let Some(rest) = behind(text, b"B5 ") {
            Some((BarHead::OtherCraft, rest))
        } else if let Some(rest) = behind(text, b"B6 ") {
            Some((BarHead::Lacks, rest))
        } else if let Some(rest) = behind(text, b"B8 ") {
            Some((BarHead::Held, rest))
        } else if let Some(rest) = behind(text, b"21103(a)(3) ") {
            Some((BarHead::Rest, rest))
        } else if let Some(rest) = behind(text, b"21103(c)(4) ") {
            Some((BarHead::MoreRest, rest))
        } else if let Some(rest) = behind(text, b"21103(e) ") {
            Some((BarHead::Undisturbed, rest))
        } else if let Some(rest) = behind(text, b"21103(a)(4)(A) ") {
            Some((BarHead::SixDays, rest))
        } else if let Some(rest) = behind(text, b"21103(a)(4)(A)(ii) ") {
            Some((BarHead::SevenDays, rest))
        } else if let Some(rest) = behind(text, b"21103(a)(1) ") {
            Some((BarHead::MonthHours, rest))
        } else if let Some(rest) = behind(text, b"21103(c)(1) ") {
            Some((BarHead::LimboHours, rest))
        } else {
            None
        }
    }
}
