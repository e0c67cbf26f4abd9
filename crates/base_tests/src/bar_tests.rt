//! The table of bars: expected values are those of its rows, written out by hand.
use denial_rules::{Bar, Facts, first_bar, name};
use desk_base::{Code, Minute, Month, VacNo};
use qualifications::{Craft, Quals};
use std::test::Fail;

#[test]
fn the_first_row_that_holds(rt: HostRuntime) -> Result<(), Fail> {
    let home = Code::read(b"HOM").ok_or("no place")?;
    let away = Code::read(b"AWAY1").ok_or("no place")?;
    let assigned = VacNo::new(7).ok_or("no vacancy")?;
    let offered = VacNo::new(9_999_999).ok_or("no vacancy")?;
    let rested = Minute::new(28_492_440).ok_or("no minute")?;
    let until = Minute::new(28_491_850).ok_or("no minute")?;
    let asked = Quals::read(b"2+3+5+63").ok_or("no qualifications")?;
    let none = Quals::read(b"-").ok_or("no qualifications")?;
    let some = Quals::read(b"0+2+5").ok_or("no qualifications")?;
    let most = Quals::read(b"2+3+5").ok_or("no qualifications")?;
    let all = Quals::read(b"2+3+5+40+63").ok_or("no qualifications")?;
    let mut facts = Facts {
        marked_off: true,
        in_tour: true,
        assigned: Some(assigned),
        on_offer: Some(offered),
        place_is: away,
        place_asked: home,
        craft_is: Craft::C,
        craft_asked: Craft::E,
        quals_has: none,
        quals_asked: asked,
        answered: true,
        held: Some(until),
        law: Some(Bar::Rest(rested)),
    };
    assert_eq!(rt; first_bar(&facts), Some(Bar::MarkedOff));
    facts.marked_off = false;
    assert_eq!(rt; first_bar(&facts), Some(Bar::InTour));
    facts.in_tour = false;
    assert_eq!(rt; first_bar(&facts), Some(Bar::Assigned(assigned)));
    facts.assigned = None;
    assert_eq!(rt; first_bar(&facts), Some(Bar::OnOffer(offered)));
    facts.on_offer = None;
    assert_eq!(rt; first_bar(&facts), Some(Bar::Elsewhere(away)));
    facts.place_is = home;
    assert_eq!(rt; first_bar(&facts), Some(Bar::OtherCraft(Craft::C)));
    facts.craft_is = Craft::E;
    for (quals_has, lowest) in [(none, 2), (some, 3), (most, 63)] {
        facts.quals_has = quals_has;
        assert_eq!(rt; first_bar(&facts), Some(Bar::Lacks(lowest)));
    }
    facts.quals_has = all;
    assert_eq!(rt; first_bar(&facts), Some(Bar::Answered));
    facts.answered = false;
    assert_eq!(rt; first_bar(&facts), Some(Bar::Held(until)));
    facts.held = None;
    assert_eq!(rt; first_bar(&facts), Some(Bar::Rest(rested)));
    facts.law = None;
    assert_eq!(rt; first_bar(&facts), None);
    Ok(())
}

#[test]
fn names_of_the_bars(rt: HostRuntime) -> Result<(), Fail> {
    let vacancy = VacNo::new(9_999_999).ok_or("no vacancy")?;
    let place = Code::read(b"HOM").ok_or("no place")?;
    let minute = Minute::new(28_491_840).ok_or("no minute")?;
    let month = Month::new(650).ok_or("no month")?;
    let named = [
        (Bar::MarkedOff, "B1"),
        (Bar::InTour, "B2"),
        (Bar::Assigned(vacancy), "B2"),
        (Bar::OnOffer(vacancy), "B3"),
        (Bar::Elsewhere(place), "B4"),
        (Bar::OtherCraft(Craft::B), "B5"),
        (Bar::Lacks(63), "B6"),
        (Bar::Answered, "B7"),
        (Bar::Held(minute), "B8"),
        (Bar::Rest(minute), "21103(a)(3)"),
        (Bar::MoreRest(minute), "21103(c)(4)"),
        (Bar::Undisturbed(minute), "21103(e)"),
        (
            Bar::SixDays {
                run: 6,
                need: 2_880,
            },
            "21103(a)(4)(A)",
        ),
        (
            Bar::SevenDays {
                run: 7,
                need: 4_320,
            },
            "21103(a)(4)(A)(ii)",
        ),
        (
            Bar::MonthHours {
                month,
                total: 16_561,
            },
            "21103(a)(1)",
        ),
        (
            Bar::LimboHours {
                month,
                total: 1_801,
            },
            "21103(c)(1)",
        ),
    ];
    for (bar, text) in named {
        assert_eq!(rt; name(&bar), text);
    }
    Ok(())
}
