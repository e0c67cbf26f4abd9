ghost use Rattle.desk_register.specs.Vacancies.{target, state_then, turner, giver, IsChanged, IsMade};
ghost use Rattle.std.specs.Prelude.{◌≡◌};

use crate::kept_person::reports;
use desk_base::{PersonNo, VacNo};
use desk_model::{Cmd, Job, VacState};

/// What is kept of a vacancy.
#[derive(Clone, Copy, Debug)]
pub struct KeptVacancy {
    /// The job that it was made as.
    pub job: Job,
    /// How it stands.
    pub state: VacState,
}

// The vacancy whose state a command changes; `had` is what is assigned to the person whom the command names.
pub(crate) fn target(cmd: &Cmd, had: Option<VacNo>) -> Option<VacNo>
    ensures { result ≡ target cmd.now had }
{
    match cmd {
        Cmd::Accept { vac, .. }
        | Cmd::Decline { vac, .. }
        | Cmd::NoAnswer { vac, .. }
        | Cmd::Withdraw { vac, .. }
        | Cmd::Annul { vac } => Some(*vac),
        Cmd::Drop { .. } => had,
        Cmd::Happened { event, .. } if reports(event) => had,
        _ => None,
    }
}

// The state that the command leaves it in.
fn state_then(cmd: &Cmd, state: VacState) -> VacState
    ensures { result ≡ state_then cmd.now state }
{
    match cmd {
        Cmd::Accept { person, .. } => VacState::Taken(*person),
        Cmd::Decline { .. } | Cmd::NoAnswer { .. } | Cmd::Withdraw { .. } | Cmd::Drop { .. } => {
            VacState::Vacant
        }
        Cmd::Annul { .. } => VacState::Annulled,
        Cmd::Happened { person, .. } => VacState::Begun(*person),
        _ => state,
    }
}

// Who turns it down by the command.
pub(crate) fn turner(cmd: &Cmd) -> Option<PersonNo>
    ensures { result ≡ turner cmd.now }
{
    match cmd {
        Cmd::Decline { person, .. } | Cmd::NoAnswer { person, .. } | Cmd::Drop { person } => {
            Some(*person)
        }
        _ => None,
    }
}

// From whom the command may take what is assigned to them.
pub(crate) fn giver(cmd: &Cmd) -> Option<PersonNo>
    ensures { result ≡ giver cmd.now }
{
    match cmd {
        Cmd::Drop { person } | Cmd::Happened { person, .. } => Some(*person),
        _ => None,
    }
}

impl KeptVacancy {
    // What is kept of a vacancy that is made.
    pub(crate) fn made(job: Job) -> KeptVacancy
        ensures { IsMade job result }
    {
        KeptVacancy {
            job,
            state: VacState::Vacant,
        }
    }

    // What a command makes of the vacancy whose state it changes.
    pub(crate) fn change(&mut self, cmd: &Cmd)
        ensures { IsChanged cmd.now self.old self.new }
    {
        self.state = state_then(cmd, self.state);
    }
}
