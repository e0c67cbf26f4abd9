ghost use Rattle.std.specs.Prelude.{◌≡◌, ◌<◌};
ghost use Rattle.std.specs.Option.{SomeIff};
ghost use Rattle.desk_base.specs.Span.{span_of};

use crate::Minute;
use std::marker::Model;

/// Two minutes, the first before the second. It holds the minutes from the first on that are before the second.
#[derive(Clone, Copy, Debug, PartialEq, Eq, Hash)]
pub struct Span {
    from: Minute,
    to: Minute,
}

impl Model for Span {
    ghost use Rattle.std.specs.Prelude.{◌<◌};
    ghost use Rattle.desk_base.specs.Span.{SpanValue, span_of};

    ghost Value = { SpanValue };

    ghost view = { λ s. span_of s.from s.to };

    ghost invariant = { λ s. s.from < s.to };

    ghost inverse = { λ v. record { from = v.from; to = v.to } };
}

impl Span {
    /// The span from one minute to another; `None` where the first is not before the second.
    pub fn new(from: Minute, to: Minute) -> Option<Span>
        ensures { SomeIff result (from < to) (span_of from to) }
    {
        if from < to {
            Some(Span { from, to })
        } else {
            None
        }
    }

    /// The first minute.
    pub fn from(&self) -> Minute
        ensures value { result ≡ self.now.from }
        ensures before { result < self.now.to }
    {
        self.from
    }

    /// The first minute after.
    pub fn to(&self) -> Minute
        ensures value { result ≡ self.now.to }
        ensures after { self.now.from < result }
    {
        self.to
    }
}
