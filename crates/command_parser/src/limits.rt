//! How much a day file may hold.
ghost use Rattle.std.specs.Prelude.{◌≡◌};

/// How many records a day file may have: its opening and 200,000 commands.
pub const RECORD_LIMIT: usize = 200_001;

/// How many of these may be commands.
pub const COMMAND_LIMIT: u32 = 200_000;

/// How many bytes the record of a command has at least, with its line feed: those of `2024-03-04 00:00,on,1`.
pub const SHORTEST_RECORD: usize = 22;

/// How many records a day file may have. It does nothing: its clause is the law.
pub fn the_most_records_of_a_day_file()
    ensures { RECORD_LIMIT ≡ 200_001 }
{}
