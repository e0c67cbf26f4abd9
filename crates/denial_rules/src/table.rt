ghost use Rattle.std.specs.Prelude.{◌≡◌, ◌↔◌, IsNone, Some};
ghost use Rattle.denial_rules.specs.declared.facts.Facts.{Facts};
ghost use Rattle.denial_rules.specs.declared.bar.Bar.{Bar};
ghost use Rattle.denial_rules.specs.Table.{first_bar, busy_bar, IsFree, without_law};
ghost use Rattle.std.specs.Option.{option_or};

use crate::{Bar, Facts};
use desk_base::VacNo;

/// The first bar that holds, this desk's own rules before the law; `None` where the person may be offered
/// the vacancy.
pub fn first_bar(facts: &Facts) -> Option<Bar>
    ensures first { result ≡ first_bar facts.now }
    ensures free { IsNone result ↔ IsFree facts.now }
{
    if facts.marked_off {
        Some(Bar::MarkedOff)
    } else if facts.in_tour {
        Some(Bar::InTour)
    } else if let Some(vacancy) = facts.assigned {
        Some(Bar::Assigned(vacancy))
    } else if let Some(vacancy) = facts.on_offer {
        Some(Bar::OnOffer(vacancy))
    } else if facts.place_is != facts.place_asked {
        Some(Bar::Elsewhere(facts.place_is))
    } else if facts.craft_is != facts.craft_asked {
        Some(Bar::OtherCraft(facts.craft_is))
    } else if let Some(number) = facts.quals_has.lowest_missing(facts.quals_asked) {
        Some(Bar::Lacks(number))
    } else if facts.answered {
        Some(Bar::Answered)
    } else if let Some(until) = facts.held {
        Some(Bar::Held(until))
    } else {
        facts.law
    }
}

/// The first bar of who is marked off, in a tour, assigned or on offer, before which no other is told; `None` where none of these
/// holds.
pub fn busy_bar(
    marked_off: bool,
    in_tour: bool,
    assigned: Option<VacNo>,
    on_offer: Option<VacNo>,
) -> Option<Bar>
    ensures value { result ≡ busy_bar marked_off in_tour assigned on_offer }
    ensures first { (facts : Facts) (bar : Bar) → facts.marked_off ≡ marked_off → facts.in_tour ≡ in_tour
        → facts.assigned ≡ assigned → facts.on_offer ≡ on_offer → result ≡ Some bar → first_bar facts ≡ Some bar }
{
    if marked_off {
        Some(Bar::MarkedOff)
    } else if in_tour {
        Some(Bar::InTour)
    } else if let Some(vacancy) = assigned {
        Some(Bar::Assigned(vacancy))
    } else if let Some(vacancy) = on_offer {
        Some(Bar::OnOffer(vacancy))
    } else {
        None
    }
}

/// The law's bar is told where no other holds, so that it need not be looked for before. It does nothing: its clause is the law.
pub fn the_law_comes_last()
    ensures { (facts : Facts) → first_bar facts ≡ option_or (first_bar (without_law facts)) facts.law }
{}
