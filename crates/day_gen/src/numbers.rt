//! The numbers of generated days.
ghost use Rattle.std.specs.Prelude.{◌≡◌, length};
ghost use Rattle.desk_base.specs.Month.{year_of, number_in_year};
ghost use Rattle.day_gen.specs.SetUp.{set_up};
ghost use Rattle.day_gen.specs.Generator.{most_commands};

use desk_model::Edition;

/// By what the number is multiplied as it moves.
pub const MULTIPLIER: u64 = 6_364_136_223_846_793_005;

/// What is then added.
pub const INCREMENT: u64 = 1_442_695_040_888_963_407;

/// The first month of a generated day's window, with whose first minute the day begins: January 2024.
pub const FIRST_MONTH: u16 = 648;

/// How many months the window has.
pub const MONTHS: u8 = 24;

/// How many minutes a person has to answer.
pub const ANSWER: u8 = 15;

/// How many persons are enrolled, with the numbers from 1.
pub const PERSONS: u32 = 30;

/// How many of them, the first, are listed on pools; the others are on extra boards.
pub const POOL_PERSONS: u32 = 24;

/// How many commands set the desk up: the boards, and two for each person.
pub const SET_UP: u32 = 64;

/// How many commands a generated day of the first edition may have.
pub const COMMANDS: u32 = 20_000;

/// How many one of the second edition may have.
pub const COMMANDS_OF_TWO: u32 = 10_000;

/// How many commands a generated day may have.
pub fn most_commands(edition: Edition) -> u32
    ensures { result ≡ most_commands edition }
{
    match edition {
        Edition::One => COMMANDS,
        Edition::Two => COMMANDS_OF_TWO,
    }
}

/// What the names of these numbers stand for. It does nothing: its clauses are the law.
pub fn the_numbers_of_a_day()
    ensures multiplier { MULTIPLIER ≡ 6_364_136_223_846_793_005 }
    ensures increment { INCREMENT ≡ 1_442_695_040_888_963_407 }
    ensures year { year_of FIRST_MONTH ≡ 2024 }
    ensures month { number_in_year FIRST_MONTH ≡ 1 }
    ensures months { MONTHS ≡ 24 }
    ensures answer { ANSWER ≡ 15 }
    ensures persons { PERSONS ≡ 30 }
    ensures pool_persons { POOL_PERSONS ≡ 24 }
    ensures set_up { length set_up ≡ SET_UP }
    ensures set_up_number { SET_UP ≡ 64 }
    ensures commands { COMMANDS ≡ 20_000 }
    ensures commands_of_two { COMMANDS_OF_TWO ≡ 10_000 }
{}
