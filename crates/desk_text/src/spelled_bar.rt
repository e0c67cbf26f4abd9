//! Bars, read from their texts.
ghost use Rattle.std.specs.Prelude.{◌≡◌, ◌≤◌, ℕ, decimal, IfSome};
ghost use Rattle.denial_rules.specs.declared.bar.Bar.{Bar as BarValue};
ghost use Rattle.desk_text.specs.SpelledReply.{SpellsBar, TellsBar, HasNoBarHead};

use crate::bar_head::BarHead;
use crate::spelled_part::{read_late, read_numbers, read_total};
use command_parser::read_vac;
use denial_rules::Bar;
use desk_base::{Code, read_decimal};
use qualifications::Craft;

/// The bar of a text; `None` where the text is no bar's.
pub(crate) fn read_bar(text: &[u8]) -> Option<Bar>
    ensures some { IfSome result (SpellsBar text.now) }
    ensures only { (bar : BarValue) → SpellsBar text.now bar → result ≡ Some bar }
{
    match BarHead::split(text) {
        Some((head, kept)) => read_kept(head, kept),
        None => read_plain(text),
    }
}

// A bar that keeps something, behind its head.
fn read_kept(head: BarHead, kept: &[u8]) -> Option<Bar>
    ensures some { IfSome result (TellsBar head kept.now) }
    ensures only { (bar : BarValue) → TellsBar head kept.now bar → result ≡ Some bar }
{
    match head {
        BarHead::Assigned => Some(Bar::Assigned(read_vac(kept)?)),
        BarHead::OnOffer => Some(Bar::OnOffer(read_vac(kept)?)),
        BarHead::Elsewhere => Some(Bar::Elsewhere(Code::read(kept)?)),
        BarHead::OtherCraft => Some(Bar::OtherCraft(Craft::read(kept)?)),
        BarHead::Lacks => Some(Bar::Lacks(read_qualification(kept)?)),
        BarHead::Held => Some(Bar::Held(read_late(kept)?)),
        BarHead::Rest => Some(Bar::Rest(read_late(kept)?)),
        BarHead::MoreRest => Some(Bar::MoreRest(read_late(kept)?)),
        BarHead::Undisturbed => Some(Bar::Undisturbed(read_late(kept)?)),
        BarHead::SixDays => {
            let (run, need) = read_numbers(kept)?;
            Some(Bar::SixDays { run, need })
        }
        BarHead::SevenDays => {
            let (run, need) = read_numbers(kept)?;
            Some(Bar::SevenDays { run, need })
        }
        BarHead::MonthHours => {
            let (month, total) = read_total(kept)?;
            Some(Bar::MonthHours { month, total })
        }
        BarHead::LimboHours => {
            let (month, total) = read_total(kept)?;
            Some(Bar::LimboHours { month, total })
        }
    }
}

// A bar that keeps nothing.
fn read_plain(text: &[u8]) -> Option<Bar>
    ensures some { IfSome result (SpellsBar text.now) }
    ensures only { HasNoBarHead text.now → (bar : BarValue) → SpellsBar text.now bar
        → result ≡ Some bar }
{
    if text == b"B1".as_slice() {
        Some(Bar::MarkedOff)
    } else if text == b"B2 tour".as_slice() {
        Some(Bar::InTour)
    } else if text == b"B7".as_slice() {
        Some(Bar::Answered)
    } else {
        None
    }
}

// The number of a qualification, 0 to 63.
fn read_qualification(text: &[u8]) -> Option<u8>
    ensures some { IfSome result (λ number. (number ≤ 63) × (text.now ≡ decimal number)) }
    ensures only { (number : ℕ) → number ≤ 63 → text.now ≡ decimal number
        → result ≡ Some number }
{
    let number = u8::try_from(read_decimal(text)?).ok()?;
    if number <= 63 { Some(number) } else { None }
}
