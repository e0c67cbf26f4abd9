ghost use Rattle.std.specs.Prelude.{◌≡◌, ◌<◌};
ghost use Rattle.day_gen.specs.Draws.{moved, drawn};
ghost use Rattle.day_gen.specs.Rules.{craft_by};

use crate::course::Course;
use qualifications::Craft;

/// What is drawn for a vacancy.
#[derive(Clone, Copy, Debug)]
pub(crate) struct Plan {
    /// The craft that it asks for.
    pub(crate) craft: Craft,
    /// How many minutes the report comes later than in an hour, 0 to 59.
    pub(crate) wait: u64,
    /// How many minutes on duty it has above the least, 0 to 119.
    pub(crate) length: u16,
}

impl Plan {
    /// Draws the craft, the report and the duty, in this order.
    pub(crate) fn draw(course: &mut Course) -> Plan
        ensures course { course.new ≡ moved (moved (moved course.old)) }
        ensures craft { result.craft ≡ craft_by (drawn (moved course.old) 2) }
        ensures wait { result.wait ≡ drawn (moved (moved course.old)) 60 }
        ensures length { result.length ≡ drawn (moved (moved (moved course.old))) 120 }
        ensures soon { result.wait < 60 }
        ensures short { result.length < 120 }
    {
        let craft = craft_by(course.draw(2));
        let wait = course.draw(60);
        let length = course.draw(120) as u16;
        Plan {
            craft,
            wait,
            length,
        }
    }
}

// The craft that a vacancy asks for, by what was drawn.
fn craft_by(draw: u64) -> Craft
    ensures { result ≡ craft_by draw }
{
    if draw == 0 { Craft::E } else { Craft::C }
}
