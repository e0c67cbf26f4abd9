//! How much of a line is heard and taken.
ghost use Rattle.std.specs.Prelude.{◌≡◌};

/// How many lines of its caller a line may give in a session, those that are too long among them.
pub const LINES_PER_CALLER: u32 = 10_000;

/// How many calls each line has where all lines are served at one desk.
pub const CALLS_PER_LINE: u32 = 5_000;

/// What the names of these numbers stand for. It does nothing: its clauses are the law.
pub fn the_numbers_of_a_session()
    ensures lines { LINES_PER_CALLER ≡ 10_000 }
    ensures calls { CALLS_PER_LINE ≡ 5_000 }
{}
