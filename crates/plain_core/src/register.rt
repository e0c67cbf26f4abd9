ghost use Rattle.std.specs.Prelude.{◌≡◌, unwrap_or, length};
ghost use Rattle.std.specs.List.{filter_map};
ghost use Rattle.desk_model.specs.histories.History.{said, first_of, last_of};
ghost use Rattle.desk_model.specs.histories.Register.{enrols, enrols_any, gives, sets_up, sets_up_any, makes, makes_any};

use desk_base::{Code, PersonNo, VacNo};
use desk_model::{BoardSetup, Cmd, Entry, Job, Person};
use qualifications::Quals;

// What the entry enrols this person as.
fn enrols(entry: &Entry, person: PersonNo) -> Option<Person>
    ensures { result ≡ said (enrols person) entry.now }
{
    let cmd = entry.accepted()?;
    let Cmd::Enrol {
        person: enrolled,
        craft,
        home,
        ..
    } = cmd
    else {
        return None;
    };
    if *enrolled != person {
        return None;
    }
    Some(Person {
        craft: *craft,
        home: *home,
    })
}

// The qualifications that the entry gives this person.
fn gives(entry: &Entry, person: PersonNo) -> Option<Quals>
    ensures { result ≡ said (gives person) entry.now }
{
    let cmd = entry.accepted()?;
    match cmd {
        Cmd::Enrol {
            person: other,
            quals,
            ..
        }
        | Cmd::Qualify {
            person: other,
            quals,
        } => (*other == person).then_some(*quals),
        _ => None,
    }
}

// Whom the entry enrols.
fn enrols_any(entry: &Entry) -> Option<PersonNo>
    ensures { result ≡ said enrols_any entry.now }
{
    let cmd = entry.accepted()?;
    let Cmd::Enrol { person, .. } = cmd else {
        return None;
    };
    Some(*person)
}

// What the entry sets this board up as.
pub(crate) fn sets_up(entry: &Entry, board: &Code) -> Option<BoardSetup>
    ensures { result ≡ said (sets_up board.now) entry.now }
{
    let cmd = entry.accepted()?;
    let Cmd::Board {
        board: code,
        extra,
        place,
    } = cmd
    else {
        return None;
    };
    if code != board {
        return None;
    }
    Some(BoardSetup {
        extra: *extra,
        place: *place,
    })
}

// The board that the entry sets up.
pub(crate) fn sets_up_any(entry: &Entry) -> Option<Code>
    ensures { result ≡ said sets_up_any entry.now }
{
    let cmd = entry.accepted()?;
    let Cmd::Board { board, .. } = cmd else {
        return None;
    };
    Some(*board)
}

// The job, where the entry makes this vacancy.
fn makes(entry: &Entry, vac: VacNo) -> Option<Job>
    ensures { result ≡ said (makes vac) entry.now }
{
    let cmd = entry.accepted()?;
    let Cmd::Vacancy(job) = cmd else {
        return None;
    };
    if job.vac() != vac {
        return None;
    }
    Some(*job)
}

// The vacancy that the entry makes.
fn makes_any(entry: &Entry) -> Option<VacNo>
    ensures { result ≡ said makes_any entry.now }
{
    let cmd = entry.accepted()?;
    let Cmd::Vacancy(job) = cmd else {
        return None;
    };
    Some(job.vac())
}

/// The person as enrolled; `None` where nobody has the number.
pub(crate) fn person_of(entries: &[Entry], person: PersonNo) -> Option<Person>
    ensures { result ≡ first_of (said (enrols person)) entries.now }
{
    for entry in entries {
        if let Some(member) = enrols(entry, person) {
            return Some(member);
        }
    }
    None
}

// No qualifications.
fn no_quals() -> Quals
    ensures { result ≡ 0 }
{
    Quals::read(b"-").unwrap()
}

/// What the person can do: the qualifications that they were given last.
pub(crate) fn quals_of(entries: &[Entry], person: PersonNo) -> Quals
    ensures { result ≡ unwrap_or (last_of (said (gives person)) entries.now) 0 }
{
    let mut last = None;
    for entry in entries {
        let Some(quals) = gives(entry, person) else {
            continue;
        };
        last = Some(quals);
    }
    match last {
        Some(quals) => quals,
        None => no_quals(),
    }
}

/// The board as set up; `None` where the code is no board.
pub(crate) fn board_of(entries: &[Entry], board: &Code) -> Option<BoardSetup>
    ensures { result ≡ first_of (said (sets_up board.now)) entries.now }
{
    for entry in entries {
        if let Some(sort) = sets_up(entry, board) {
            return Some(sort);
        }
    }
    None
}

/// The vacancy's job; `None` where it was never made.
pub(crate) fn vacancy_of(entries: &[Entry], vac: VacNo) -> Option<Job>
    ensures { result ≡ first_of (said (makes vac)) entries.now }
{
    for entry in entries {
        if let Some(job) = makes(entry, vac) {
            return Some(job);
        }
    }
    None
}

/// How many persons are enrolled.
pub(crate) fn count_persons(entries: &[Entry]) -> usize
    ensures { result ≡ length (filter_map (said enrols_any) entries.now) }
{
    let mut count = 0;
    for entry in entries {
        if enrols_any(entry).is_some() {
            count += 1;
        }
    }
    count
}

/// How many boards there are.
pub(crate) fn count_boards(entries: &[Entry]) -> usize
    ensures { result ≡ length (filter_map (said sets_up_any) entries.now) }
{
    let mut count = 0;
    for entry in entries {
        if sets_up_any(entry).is_some() {
            count += 1;
        }
    }
    count
}

/// How many vacancies were made.
pub(crate) fn count_vacancies(entries: &[Entry]) -> usize
    ensures { result ≡ length (filter_map (said makes_any) entries.now) }
{
    let mut count = 0;
    for entry in entries {
        if makes_any(entry).is_some() {
            count += 1;
        }
    }
    count
}
