ghost use Rattle.std.specs.Prelude.{◌≡◌, ◌≢◌, ◌++◌, ℕ, List, IfSome, IfNone};
ghost use Rattle.desk_text.specs.Heads.{reply_head_text};
ghost use Rattle.desk_text.specs.declared.reply_head.ReplyHead.{ReplyHead as ReplyHeadValue};

use crate::cut::behind;

/// What the text of a reply that keeps something begins with, but for an event's fault: none begins another.
#[derive(Clone, Copy, Debug, PartialEq, Eq)]
pub(crate) enum ReplyHead {
    Offered,
    Unfilled,
    Hours,
    Seen,
    NoOne,
    State,
    RunAround,
    Denied,
    Clear,
    Frozen,
    EventAhead,
    UnknownBoard,
    BadChain,
    ReportPast,
    Closed,
    OfferOpen,
    Lapsed,
    Early,
}

impl ReplyHead {
    /// The head of a text, and what stands behind it; `None` where the text begins with no head.
    pub(crate) fn split(text: &[u8]) -> Option<(ReplyHead, &[u8])>
        ensures some { IfSome result (λ found.
            text.now ≡ reply_head_text found.0 ++ found.1.now) }
        ensures none { IfNone result ((head : ReplyHeadValue) (rest : List ℕ)
            → text.now ≢ reply_head_text head ++ rest) }
    {
        // Those that most journals have most of come first.
        if let Some(rest) = behind(text, b"offered ") {
            Some((ReplyHead::Offered, rest))
        } else if let Some(rest) = behind(text, b"hours ") {
            Some((ReplyHead::Hours, rest))
        } else if let Some(rest) = behind(text, b"state ") {
            Some((ReplyHead::State, rest))
        } else if let Some(rest) = behind(text, b"clear ") {
            Some((ReplyHead::Clear, rest))
        } else if let Some(rest) = behind(text, b"seen ") {
            Some((ReplyHead::Seen, rest))
        } else if let Some(rest) = behind(text, b"closed ") {
            Some((ReplyHead::Closed, rest))
        } else if let Some(rest) = behind(text, b"denied ") {
            Some((ReplyHead::Denied, rest))
        } else if let Some(rest) = behind(text, b"no one ") {
            Some((ReplyHead::NoOne, rest))
        } else if let Some(rest) = behind(text, b"unfilled ") {
            Some((ReplyHead::Unfilled, rest))
        } else if let Some(rest) = behind(text, b"run around ") {
            Some((ReplyHead::RunAround, rest))
        } else if let Some(rest) = behind(text, b"frozen ") {
            Some((ReplyHead::Frozen, rest))
        } else if let Some(rest) = behind(text, b"event ahead ") {
            Some((ReplyHead::EventAhead, rest))
        } else if let Some(rest) = behind(text, b"unknown board ") {
            Some((ReplyHead::UnknownBoard, rest))
        } else if let Some(rest) = behind(text, b"bad chain ") {
            Some((ReplyHead::BadChain, rest))
        } else if let Some(rest) = behind(text, b"report past ") {
            Some((ReplyHead::ReportPast, rest))
        } else if let Some(rest) = behind(text, b"offer open ") {
            Some((ReplyHead::OfferOpen, rest))
        } else if let Some(rest) = behind(text, b"lapsed ") {
            Some((ReplyHead::Lapsed, rest))
        } else if let Some(rest) = behind(text, b"early ") {
            Some((ReplyHead::Early, rest))
        } else {
            None
        }
    }
}
