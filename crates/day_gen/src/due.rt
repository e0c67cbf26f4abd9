ghost use Rattle.std.specs.Prelude.{◌≡◌, ℕ};
ghost use Rattle.desk_model.specs.offers.Offers.{asks_for, offer_in};
ghost use Rattle.day_gen.specs.Due.{due_after_done, due_after_offer, due_after};

use desk_base::{PersonNo, VacNo};
use desk_model::{Cmd, EntryRef, Reply};
use duty_events::Event;

/// What the last entry leaves to do.
#[derive(Clone, Copy, Debug)]
pub enum Due {
    /// The person is to answer the offer of the vacancy.
    Answer { vac: VacNo, person: PersonNo },
    /// The person, who accepted the vacancy, is to report for it.
    Report { vac: VacNo, person: PersonNo },
    /// The person, who is on duty, is to be released.
    Release { person: PersonNo },
    /// The vacancy is to be called for.
    Call { vac: VacNo },
    /// Nothing.
    Nothing,
}

impl Due {
    /// What an entry leaves to do.
    pub fn after(entry: &EntryRef) -> Due
        ensures { result ≡ due_after entry.now }
    {
        match entry.accepted() {
            Some(cmd) => Due::after_done(cmd),
            None => Due::after_offer(entry.stated().cmd(), entry.reply()),
        }
    }

    // What an accepted command leaves to do.
    fn after_done(cmd: &Cmd) -> Due
        ensures { result ≡ due_after_done cmd.now }
    {
        match cmd {
            Cmd::Accept { vac, person } => Due::Report {
                vac: *vac,
                person: *person,
            },
            Cmd::Happened {
                person,
                event: Event::Duty(_),
            } => Due::Release { person: *person },
            Cmd::Vacancy(job) => Due::Call { vac: job.vac() },
            Cmd::Decline { vac, .. } | Cmd::Withdraw { vac, .. } => Due::Call { vac: *vac },
            _ => Due::Nothing,
        }
    }

    // What an offer of the vacancy that was asked for leaves to do.
    fn after_offer(cmd: &Cmd, reply: Reply) -> Due
        ensures { (moment : ℕ) → result ≡ due_after_offer (asks_for cmd.now) (offer_in moment reply) }
    {
        match (asks_for(cmd), reply) {
            (Some(vac), Reply::Offered { person, .. }) => Due::Answer { vac, person },
            _ => Due::Nothing,
        }
    }
}

// The vacancy that a command asks to be offered.
fn asks_for(cmd: &Cmd) -> Option<VacNo>
    ensures { result ≡ asks_for cmd.now }
{
    match cmd {
        Cmd::Next { vac } | Cmd::Offer { vac, .. } => Some(*vac),
        _ => None,
    }
}
