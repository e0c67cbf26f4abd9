//! Cases of the law's minutes, by lists of events that are worked by hand or drawn: stretches, kinds of minutes, rest, hours, days
//! in a row, bars, and clocks beside the scans. Nothing else is here: these tests need no second proof of `stretches`,
//! `duty_events`, `rest_rules`, `month_hours`, `tour_build`, `consecutive_days`, `law_bars` and `person_clock`, as they would in
//! them.
#![tactic(auto)]

#[cfg(test)]
mod asks;
#[cfg(test)]
mod cases;
#[cfg(test)]
mod clock;
#[cfg(test)]
mod clock_tests;
#[cfg(test)]
mod drawn;
#[cfg(test)]
mod event_tests;
#[cfg(test)]
mod excess_tests;
#[cfg(test)]
mod interim_tests;
#[cfg(test)]
mod law_tests;
#[cfg(test)]
mod list_tests;
#[cfg(test)]
mod month_tests;
#[cfg(test)]
mod plan_tests;
#[cfg(test)]
mod rest_tests;
#[cfg(test)]
mod run_tests;
#[cfg(test)]
mod scans;
#[cfg(test)]
mod share_tests;
#[cfg(test)]
mod stretch_tests;
#[cfg(test)]
mod sum_tests;
#[cfg(test)]
mod time_off_tests;
#[cfg(test)]
mod told;
#[cfg(test)]
mod tour_tests;
