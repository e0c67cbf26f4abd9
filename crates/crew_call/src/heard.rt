ghost use Rattle.std.specs.Prelude.{◌≡◌, ◌<◌, [], ◌∷◌, ◌++◌, length};
ghost use Rattle.crew_call.specs.CrewCalls.{IsFilled, somes};
ghost use Rattle.crew_call.specs.Course.{entries_of};

use desk_model::Entry;

/// The entries of a crew call so far.
#[derive(Clone, Copy, Debug)]
pub(crate) enum Heard {
    Nothing,
    First(Entry),
    Second(Entry, Entry),
    Third(Entry, Entry, Entry),
}

impl Heard {
    /// With one entry more; there are fewer than three.
    pub(crate) fn with(&self, entry: &Entry) -> Heard
        requires { length (entries_of self.now) < 3 }
        ensures { entries_of result ≡ entries_of self.now ++ entry.now ∷ [] }
    {
        match self {
            Heard::Nothing => Heard::First(*entry),
            Heard::First(first) => Heard::Second(*first, *entry),
            Heard::Second(first, second) => Heard::Third(*first, *second, *entry),
            Heard::Third(..) => unreachable!(),
        }
    }

    /// The entries, filled from the front.
    pub(crate) fn entries(&self) -> [Option<Entry>; 3]
        ensures some { somes result ≡ entries_of self.now }
        ensures front { IsFilled result }
    {
        match self {
            Heard::Nothing => [None, None, None],
            Heard::First(first) => [Some(*first), None, None],
            Heard::Second(first, second) => [Some(*first), Some(*second), None],
            Heard::Third(first, second, third) => [Some(*first), Some(*second), Some(*third)],
        }
    }
}
