ghost use Rattle.std.specs.Prelude.{◌≡◌};
ghost use Rattle.denial_rules.specs.Bar.{name_of};

use desk_base::{Code, Minute, Month, VacNo};
use qualifications::Craft;

/// What keeps a person from a vacancy, with what a denial says of it.
#[derive(Clone, Copy, Debug, PartialEq, Eq)]
pub enum Bar {
    /// The person is marked off.
    MarkedOff,
    /// The person is in a tour of duty.
    InTour,
    /// The person has accepted this vacancy, which hasn't begun.
    Assigned(VacNo),
    /// This vacancy is on offer to the person.
    OnOffer(VacNo),
    /// The person is at this place, and not where the vacancy is.
    Elsewhere(Code),
    /// The person works in this craft, and the vacancy asks for another.
    OtherCraft(Craft),
    /// The lowest qualification, 0 to 63, that the vacancy asks for and the person lacks.
    Lacks(u8),
    /// The person declined, did not answer or dropped this vacancy.
    Answered,
    /// The second edition of this desk's rules: the person has declined an offer from a board of the vacancy's chain, and is
    /// held. Keeps the minute at which the hold ends.
    Held(Minute),
    /// 49 USC 21103(a)(3): less than ten hours off duty before the report. Keeps the minute ten hours after the last worked
    /// one, also where the person has rested only later than that.
    Rest(Minute),
    /// 49 USC 21103(c)(4): the rest is longer by what a tour had over twelve hours. Keeps the end of that rest, also where
    /// the person has rested only later.
    MoreRest(Minute),
    /// 49 USC 21103(e): nobody calls during that rest. Keeps the same minute.
    Undisturbed(Minute),
    /// 49 USC 21103(a)(4)(A): six days in a row. Keeps their number, and the 2,880 minutes off duty that they need.
    SixDays { run: u32, need: u32 },
    /// 49 USC 21103(a)(4)(A)(ii): seven days in a row. Keeps their number, and the 4,320 minutes off duty that they need.
    SevenDays { run: u32, need: u32 },
    /// 49 USC 21103(a)(1): over 276 hours in a month. Keeps the month, and its total in minutes with the vacancy's.
    MonthHours { month: Month, total: u32 },
    /// 49 USC 21103(c)(1): over 30 hours of limbo in a month. Keeps the month, and its total in minutes with the vacancy's.
    LimboHours { month: Month, total: u32 },
}

/// The bar's name: its row in this desk's list of bars, or its paragraph of 49 USC 21103.
pub fn name(bar: &Bar) -> &'static str
    ensures { result.now ≡ name_of bar.now }
{
    match bar {
        Bar::MarkedOff => "B1",
        Bar::InTour | Bar::Assigned(_) => "B2",
        Bar::OnOffer(_) => "B3",
        Bar::Elsewhere(_) => "B4",
        Bar::OtherCraft(_) => "B5",
        Bar::Lacks(_) => "B6",
        Bar::Answered => "B7",
        Bar::Held(_) => "B8",
        Bar::Rest(_) => "21103(a)(3)",
        Bar::MoreRest(_) => "21103(c)(4)",
        Bar::Undisturbed(_) => "21103(e)",
        Bar::SixDays { .. } => "21103(a)(4)(A)",
        Bar::SevenDays { .. } => "21103(a)(4)(A)(ii)",
        Bar::MonthHours { .. } => "21103(a)(1)",
        Bar::LimboHours { .. } => "21103(c)(1)",
    }
}
