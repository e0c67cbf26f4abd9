ghost use Rattle.std.specs.Prelude.{◌≡◌};
ghost use Rattle.desk_model.specs.offers.Assigned.{reports};
ghost use Rattle.desk_register.specs.Changes.{subject, changed, enrolled};

use desk_base::{Code, PersonNo, VacNo};
use desk_model::{Cmd, Person};
use duty_events::Event;
use qualifications::{Craft, Quals};

/// What is kept of an enrolled person.
#[derive(Clone, Copy, Debug)]
pub struct KeptPerson {
    /// What the person was enrolled as.
    pub person: Person,
    /// What the person can do.
    pub quals: Quals,
    /// Whether the person is marked off.
    pub marked_off: bool,
    /// Whether what the person did before can't be told any more.
    pub closed: bool,
    /// The vacancy that is assigned to the person; `None` where none is.
    pub assigned: Option<VacNo>,
    /// The vacancy that is on offer to the person; `None` where none is.
    pub on_offer: Option<VacNo>,
}

// The enrolled person whom a command changes.
pub(crate) fn subject(cmd: &Cmd) -> Option<PersonNo>
    ensures { result ≡ subject cmd.now }
{
    match cmd {
        Cmd::List { person, .. }
        | Cmd::MarkOff { person }
        | Cmd::MarkOn { person }
        | Cmd::Qualify { person, .. }
        | Cmd::Happened { person, .. }
        | Cmd::Accept { person, .. }
        | Cmd::NoAnswer { person, .. }
        | Cmd::Drop { person } => Some(*person),
        _ => None,
    }
}

// Whether the event is a report.
pub(crate) fn reports(event: &Event) -> bool
    ensures { result ≡ reports event.now }
{
    match event {
        Event::Ride(_) | Event::Duty(_) => true,
        _ => false,
    }
}

impl KeptPerson {
    // What is kept of who is enrolled.
    pub(crate) fn enrolled(craft: Craft, home: Code, quals: Quals) -> KeptPerson
        ensures { result ≡ enrolled craft home quals }
    {
        KeptPerson {
            person: Person { craft, home },
            quals,
            marked_off: false,
            closed: false,
            assigned: None,
            on_offer: None,
        }
    }

    // What an accepted command makes of what is kept of the person whom it changes.
    pub(crate) fn change(&mut self, cmd: &Cmd)
        ensures { self.new ≡ changed cmd.now self.old }
    {
        match cmd {
            Cmd::List { .. } => self.closed = true,
            Cmd::MarkOff { .. } | Cmd::NoAnswer { .. } => self.marked_off = true,
            Cmd::MarkOn { .. } => self.marked_off = false,
            Cmd::Qualify { quals, .. } => self.quals = *quals,
            Cmd::Happened { event, .. } => {
                self.closed = true;
                if reports(event) {
                    self.assigned = None;
                }
            }
            Cmd::Accept { vac, .. } => self.assigned = Some(*vac),
            Cmd::Drop { .. } => {
                self.marked_off = true;
                self.assigned = None;
            }
            _ => {}
        }
    }
}
