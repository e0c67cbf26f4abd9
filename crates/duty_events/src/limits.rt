//! The numbers of a tour of duty, in minutes.
ghost use Rattle.std.specs.Prelude.{◌≡◌};

/// From so many minutes on an interim that ended with a resume is off duty, but for one of the kind `O`: four hours, 49 USC
/// 21103(b)(5) to (7).
pub const OFF_DUTY_INTERIM: u64 = 240;

/// From so many minutes on an interim can't be resumed, but for one of the kind `O`: ten hours, which are a rest.
pub const INTERIM_LIMIT: u64 = 600;

/// The minutes on duty and in limbo of a tour that cost nothing: twelve hours, as 49 USC 21103(a)(2) has them. Limbo behind
/// them counts against a month's limit, (c)(1), and what a tour has over them is so much more rest, (c)(4).
pub const DUTY_LIMIT: u32 = 720;

/// What the names of a tour's numbers stand for. It does nothing: its clauses are the law.
pub fn the_numbers_of_a_tour()
    ensures interim { OFF_DUTY_INTERIM ≡ 240 }
    ensures long_interim { INTERIM_LIMIT ≡ 600 }
    ensures duty { DUTY_LIMIT ≡ 720 }
{}
