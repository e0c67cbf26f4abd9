//! How much a journal may hold.
ghost use Rattle.std.specs.Prelude.{◌≡◌, ◌+◌, ◌*◌};
ghost use Rattle.desk_model.specs.declared.limits.TheConstants.{LAST_CALLER};
ghost use Rattle.command_parser.specs.declared.limits.TheConstants.{COMMAND_LIMIT};
ghost use Rattle.serve_desk.specs.declared.limits.TheConstants.{CALLS_PER_LINE};

/// How many entries a journal that goes on may have in all.
pub const JOURNAL_ENTRIES: u32 = 515_000;

/// How many minutes ahead of its clock a desk may be told to hear at most.
pub const MOST_AHEAD: u32 = 1_000_000;

/// How many entries a journal that goes on may have in all: one for each command of a day file, and for each call of as many lines as are
/// served. It does nothing: its clauses are the law.
pub fn the_most_entries_of_a_journal()
    ensures number { JOURNAL_ENTRIES ≡ 515_000 }
    ensures of_all { JOURNAL_ENTRIES ≡ COMMAND_LIMIT + LAST_CALLER * CALLS_PER_LINE }
{}

/// How many minutes ahead of its clock a desk may be told to hear at most. It does nothing: its clause is the law.
pub fn the_most_minutes_ahead()
    ensures { MOST_AHEAD ≡ 1_000_000 }
{}
