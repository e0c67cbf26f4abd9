//! How much a journal may hold, and how many commands may be supposed.
ghost use Rattle.std.specs.Prelude.{◌≡◌, ◌+◌};
ghost use Rattle.kept_desk.specs.declared.limits.TheConstants.{JOURNAL_ENTRIES};

/// How many lines a journal may have: its opening's, and those of as many entries as a desk may answer.
pub const JOURNAL_LINES: usize = 515_001;

/// How many of a day's last commands may be asked for as only supposed: as many as a day may have.
pub const MOST_SUPPOSED: u32 = 200_000;

/// How many lines a journal may have. It does nothing: its clauses are the law.
pub fn the_most_lines_of_a_journal()
    ensures number { JOURNAL_LINES ≡ 515_001 }
    ensures entries { JOURNAL_LINES ≡ JOURNAL_ENTRIES + 1 }
{}

/// How many of a day's last commands may be asked for as only supposed. It does nothing: its clause is the law.
pub fn the_most_supposed_commands()
    ensures { MOST_SUPPOSED ≡ 200_000 }
{}
