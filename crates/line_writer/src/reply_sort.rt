//! The sorts of answers that a tally counts.
ghost use Rattle.std.specs.Prelude.{◌≡◌, true};
ghost use Rattle.std.specs.Bool.{Decides};
ghost use Rattle.line_writer.specs.declared.reply_sort.ReplySort.{ReplySort as SortValue};
ghost use Rattle.line_writer.specs.Tally.{is_of};

use desk_model::Reply;

/// A sort of answers.
#[derive(Clone, Copy, Debug, PartialEq, Eq)]
pub(crate) enum ReplySort {
    /// It was done.
    Done,
    /// A vacancy was offered.
    Offered,
    /// Nobody could be offered it.
    Unfilled,
    /// The person was denied it, or someone before them would have been run around.
    Denied,
    /// It told what was asked.
    Told,
    /// It is of no other sort.
    Refused,
}

impl ReplySort {
    /// The one sort that an answer is of.
    pub(crate) fn of(reply: &Reply) -> ReplySort
        ensures is { is_of result reply.now ≡ true }
        ensures only { (sort : SortValue) → is_of sort reply.now ≡ true → result ≡ sort }
    {
        match reply {
            Reply::Done => ReplySort::Done,
            Reply::Offered { .. } => ReplySort::Offered,
            Reply::Unfilled { .. } => ReplySort::Unfilled,
            Reply::Denied(_) | Reply::RunAround(_) => ReplySort::Denied,
            Reply::Seen(_)
            | Reply::NoOne { .. }
            | Reply::Hours { .. }
            | Reply::Clear { .. }
            | Reply::State(_) => ReplySort::Told,
            _ => ReplySort::Refused,
        }
    }

    /// Whether it is this sort.
    pub(crate) fn is(self, sort: ReplySort) -> bool
        ensures { Decides result (self ≡ sort) }
    {
        self == sort
    }
}
