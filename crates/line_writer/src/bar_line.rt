//! Bars as texts.
ghost use Rattle.std.specs.Prelude.{◌≡◌, ◌≤◌, ◌+◌, ◌∷◌, ◌++◌, decimal};
ghost use Rattle.arrayvec.specs.ArrayVec.{array_vec_len};
ghost use Rattle.desk_base.specs.Month.{month_text};
ghost use Rattle.desk_model.specs.texts.BarTexts.{late_text, kept_text, bar_text};

use crate::line_text::{LineText, put, put_byte, put_number};
use denial_rules::{Bar, name};
use desk_base::{Minute, Month, YEARS_END};

/// Adds the text of a bar, 40 bytes at most.
pub fn put_bar(line: &mut LineText, bar: &Bar)
    requires { array_vec_len line.old + 40 ≤ 512 }
    ensures text { line.new.items ≡ line.old.items ++ bar_text bar.now }
    ensures len { array_vec_len line.new ≤ array_vec_len line.old + 40 }
{
    put(line, name(bar).as_bytes());
    put_kept(line, bar);
}

// What the bar keeps, behind a space.
fn put_kept(line: &mut LineText, bar: &Bar)
    requires { array_vec_len line.old + 22 ≤ 512 }
    ensures text { line.new.items ≡ line.old.items ++ kept_text bar.now }
    ensures len { array_vec_len line.new ≤ array_vec_len line.old + 22 }
{
    match bar {
        Bar::MarkedOff | Bar::Answered => {}
        Bar::InTour => put(line, b" tour"),
        Bar::Assigned(vacancy) => {
            put(line, b" assigned ");
            put_number(line, vacancy.number());
        }
        Bar::OnOffer(vacancy) => {
            put_byte(line, b' ');
            put_number(line, vacancy.number());
        }
        Bar::Elsewhere(place) => {
            put_byte(line, b' ');
            put(line, place.text());
        }
        Bar::OtherCraft(craft) => {
            put_byte(line, b' ');
            put(line, craft.text());
        }
        Bar::Lacks(number) => {
            put_byte(line, b' ');
            put_number(line, u32::from(*number));
        }
        Bar::Held(ends) | Bar::Rest(ends) | Bar::MoreRest(ends) | Bar::Undisturbed(ends) => {
            put_byte(line, b' ');
            put_late(line, *ends);
        }
        Bar::SixDays { run, need } | Bar::SevenDays { run, need } => put_days(line, *run, *need),
        Bar::MonthHours { month, total } | Bar::LimboHours { month, total } => {
            put_total(line, *month, *total);
        }
    }
}

// The days in a row, and the minutes off duty that they need.
fn put_days(line: &mut LineText, run: u32, need: u32)
    requires { array_vec_len line.old + 22 ≤ 512 }
    ensures text { line.new.items ≡ line.old.items ++ 32 ∷ decimal run ++ 32 ∷ decimal need }
    ensures len { array_vec_len line.new ≤ array_vec_len line.old + 22 }
{
    put_byte(line, b' ');
    put_number(line, run);
    put_byte(line, b' ');
    put_number(line, need);
}

// The month, and its total in minutes.
fn put_total(line: &mut LineText, month: Month, total: u32)
    requires { array_vec_len line.old + 19 ≤ 512 }
    ensures text { line.new.items ≡ line.old.items ++ 32 ∷ month_text month ++ 32 ∷ decimal total }
    ensures len { array_vec_len line.new ≤ array_vec_len line.old + 19 }
{
    put_byte(line, b' ');
    put(line, &month.write());
    put_byte(line, b' ');
    put_number(line, total);
}

/// Adds a minute; one behind the year 2099 by its number.
pub fn put_late(line: &mut LineText, minute: Minute)
    requires { array_vec_len line.old + 16 ≤ 512 }
    ensures text { line.new.items ≡ line.old.items ++ late_text minute }
    ensures len { array_vec_len line.new ≤ array_vec_len line.old + 16 }
{
    if minute.number() < YEARS_END {
        put(line, &minute.write());
    } else {
        put_number(line, minute.number() as u32);
    }
}
