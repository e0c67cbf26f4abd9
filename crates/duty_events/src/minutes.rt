ghost use Rattle.std.specs.Prelude.{◌≡◌, ◌<◌, ◌^◌};
ghost use Rattle.duty_events.specs.Minutes.{minutes_where, is_within, shared};

/// How many minutes from one on and before another are among so many from a first one on, which lies below 2^28.
pub fn shared(from: u64, to: u64, first: u64, many: u32) -> u32
    requires { first < 2 ^ 28 }
    ensures value { result ≡ shared from to first many }
    ensures counts { result ≡ minutes_where (is_within from to) first many }
{
    let end = to.min(first + u64::from(many));
    end.saturating_sub(from.max(first)) as u32
}
