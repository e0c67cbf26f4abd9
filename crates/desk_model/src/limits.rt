//! How much a desk takes.
ghost use Rattle.std.specs.Prelude.{◌≡◌};

use consecutive_days::{OFF_AFTER_SEVEN_DAYS, OFF_AFTER_SIX_DAYS, SIX_DAYS};
use desk_base::{MONTHS_BEGIN, MONTHS_END, NUMBER_LIMIT, WINDOW_MONTHS, YEARS_BEGIN, YEARS_END};
use duty_events::{DUTY_LIMIT, INTERIM_LIMIT, OFF_DUTY_INTERIM};
use month_hours::{LIMBO_LIMIT, MONTH_LIMIT};
use rest_rules::REST;

/// How many persons may be enrolled.
pub const PERSON_LIMIT: usize = 1_000;

/// How many boards there may be.
pub const BOARD_LIMIT: usize = 64;

/// On how many boards a person may be.
pub const LIST_LIMIT: usize = 4;

/// How many persons may be on a board.
pub const MEMBER_LIMIT: usize = 500;

/// The last position of a board that may be asked about; the first is 1.
pub const POSITION_LIMIT: u16 = 9_999;

/// How many minutes on duty any vacancy may plan; the least are 1.
pub const DUTY_PLAN_LIMIT: u16 = 9_999;

/// How many minutes in limbo any vacancy may plan.
pub const LIMBO_PLAN_LIMIT: u16 = 999;

/// How many vacancies may be made.
pub const VACANCY_LIMIT: usize = 20_000;

/// How many boards a vacancy may be filled from.
pub const CHAIN_LIMIT: usize = 4;

/// 49 USC 21103(a)(2): how many minutes on duty a vacancy may plan that is no relief one, twelve hours.
pub const PLAN_LIMIT: u16 = 720;

/// 49 USC 21103(d): how many minutes on duty a relief vacancy may plan, sixteen hours.
pub const RELIEF_LIMIT: u16 = 960;

/// For how many minutes who declines an offer is held, eight hours: the second edition's own rule.
pub const HOLD: u64 = 480;

/// The highest number of a caller; 0 is the day file's.
pub const LAST_CALLER: u8 = 63;

/// What the names of the law's numbers stand for, all in minutes but the days: ten hours of rest, (a)(3) of 49 USC 21103;
/// twelve hours of duty, (a)(2), and sixteen of a relief crew, (d); 276 hours of a month, (a)(1), and 30 of limbo, (c)(1); six days in a row, and the 48 and
/// 72 hours off behind six and seven of them, (a)(4)(A); and an interim's four hours and ten, (b)(5) to (7). It does
/// nothing: its clauses are the law.
pub fn the_numbers_of_the_law()
    ensures rest { REST ≡ 600 }
    ensures duty { DUTY_LIMIT ≡ 720 }
    ensures plan { PLAN_LIMIT ≡ 720 }
    ensures relief { RELIEF_LIMIT ≡ 960 }
    ensures month { MONTH_LIMIT ≡ 16_560 }
    ensures limbo { LIMBO_LIMIT ≡ 1_800 }
    ensures days { SIX_DAYS ≡ 6 }
    ensures after_six { OFF_AFTER_SIX_DAYS ≡ 2_880 }
    ensures after_seven { OFF_AFTER_SEVEN_DAYS ≡ 4_320 }
    ensures interim { OFF_DUTY_INTERIM ≡ 240 }
    ensures long_interim { INTERIM_LIMIT ≡ 600 }
{}

/// What the names of the desk's numbers stand for: the minutes of the years 2000 to 2099 and their months, counted from 1970;
/// the months of a window; how much a desk takes; and how long a decline holds. It does nothing: its clauses are the law.
pub fn the_numbers_of_the_desk()
    ensures years_begin { YEARS_BEGIN ≡ 15_778_080 }
    ensures years_end { YEARS_END ≡ 68_374_080 }
    ensures months_begin { MONTHS_BEGIN ≡ 360 }
    ensures months_end { MONTHS_END ≡ 1_560 }
    ensures window { WINDOW_MONTHS ≡ 24 }
    ensures persons { PERSON_LIMIT ≡ 1_000 }
    ensures boards { BOARD_LIMIT ≡ 64 }
    ensures lists { LIST_LIMIT ≡ 4 }
    ensures members { MEMBER_LIMIT ≡ 500 }
    ensures positions { POSITION_LIMIT ≡ 9_999 }
    ensures vacancies { VACANCY_LIMIT ≡ 20_000 }
    ensures numbers { NUMBER_LIMIT ≡ 9_999_999 }
    ensures planned_duty { DUTY_PLAN_LIMIT ≡ 9_999 }
    ensures planned_limbo { LIMBO_PLAN_LIMIT ≡ 999 }
    ensures chain { CHAIN_LIMIT ≡ 4 }
    ensures hold { HOLD ≡ 480 }
    ensures callers { LAST_CALLER ≡ 63 }
{}
