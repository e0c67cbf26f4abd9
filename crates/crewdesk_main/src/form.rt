ghost use Rattle.std.specs.Prelude.{◌≡◌, IfSome, string_bytes};
ghost use Rattle.kept_desk.specs.Offset.{offset_in};
ghost use Rattle.crewdesk_main.specs.Words.{form_of, named_form, numbered_form, forecast_form, gen_form, record_form, serve_form, journal_form, keep_form, guard_of, when_form, number_in, HasNumbers};

use crate::limits::MOST_SUPPOSED;
use crate::tour_form::TourForm;
use crate::words::{are_names, has_dash, is_alone, read_number};
use day_gen::{SET_UP, most_commands};
use day_replay::DayForm;
use desk_base::{NUMBER_LIMIT, PersonNo, VacNo};
use desk_model::{Edition, LAST_CALLER};
use kept_desk::{Guard, MOST_AHEAD, Offset};
use serve_desk::Sessions;

/// The forms of the command line.
#[derive(Clone, Copy)]
pub enum Form {
    /// Prints the forms.
    Help,
    /// Prints the program's name and version.
    Version,
    /// Replays a day file, and writes this of it.
    Day(DayForm),
    /// Audits a journal.
    Audit,
    /// Goes on with a journal.
    Continue,
    /// Reads a journal as it stands, and writes these records of its tours.
    Tours(TourForm),
    /// Makes a day from a number, and writes the tally of its replay.
    Gen {
        /// How many commands it has, 64 to 20,000, and in the second edition to 10,000.
        commands: u32,
        /// The number.
        number: u64,
        /// The edition of the rules.
        edition: Edition,
    },
    /// Serves the callers of names behind a day file.
    Serve {
        /// By which sessions.
        sessions: Sessions,
        /// How many names there are, 1 to 63.
        callers: u8,
    },
    /// Serves the callers of names at a desk whose journal is kept in a file.
    Keep {
        /// How many names there are, 1 to 63.
        callers: u8,
        /// How far ahead minutes are heard; `None` where any is.
        guard: Option<Guard>,
    },
}

impl Form {
    /// The form that the words are; `None` where they are none.
    pub fn read(words: &[String]) -> Option<Form>
        ensures is { result ≡ form_of words.now }
        ensures numbers { IfSome result HasNumbers }
    {
        if is_alone(words, "replay") {
            Some(Form::Day(DayForm::Replay))
        } else if is_alone(words, "tally") {
            Some(Form::Day(DayForm::Tally))
        } else if is_alone(words, "audit") {
            Some(Form::Audit)
        } else if is_alone(words, "continue") {
            Some(Form::Continue)
        } else if is_alone(words, "excess") {
            Some(Form::Tours(TourForm::Excess))
        } else if is_alone(words, "--help") {
            Some(Form::Help)
        } else if is_alone(words, "--version") {
            Some(Form::Version)
        } else {
            named(words)
        }
    }
}

// The form that words with callers' names are, or with numbers.
fn named(words: &[String]) -> Option<Form>
    ensures is { result ≡ named_form words.now }
    ensures numbers { IfSome result HasNumbers }
{
    match words {
        [word, names @ ..] if word.as_str() == "serve" => {
            serve_form(Sessions::WithoutLooks, names.len())
        }
        [word, names @ ..] if word.as_str() == "watch" => {
            serve_form(Sessions::WithLooks, names.len())
        }
        [word, others @ ..] if word.as_str() == "keep" => keep_form(others),
        _ => numbered(words),
    }
}

// The form that keeps a journal and serves callers, by the words of a guard, or none, and names.
fn keep_form(words: &[String]) -> Option<Form>
    ensures is { result ≡ keep_form words.now }
    ensures numbers { IfSome result HasNumbers }
{
    match words {
        [clock, offset, ahead, minutes, others @ ..]
            if clock.as_str() == "--clock" && ahead.as_str() == "--ahead" => {
            let guard = read_guard(offset, minutes)?;
            journal_form(Some(guard), others)
        }
        _ => journal_form(None, words),
    }
}

// The guard of an offset and of a number of minutes; `None` where these are none, or too many.
fn read_guard(offset: &String, minutes: &String) -> Option<Guard>
    ensures { result ≡ guard_of (offset_in (string_bytes offset.now)) (number_in (string_bytes minutes.now)) }
{
    let offset = Offset::read(offset.as_bytes())?;
    let ahead = read_number(minutes.as_str())?;
    if ahead <= u64::from(MOST_AHEAD) {
        Some(Guard {
            offset,
            ahead: ahead as u32,
        })
    } else {
        None
    }
}

// The same by the journal's name and those of the callers; `None` where the journal's begins with a dash, where none are named, or more
// than a desk may have, or where they can't be names.
fn journal_form(guard: Option<Guard>, words: &[String]) -> Option<Form>
    ensures is { result ≡ journal_form guard words.now }
    ensures numbers { IfSome result HasNumbers }
{
    let [journal, names @ ..] = words else {
        return None;
    };
    if !has_dash(journal.as_bytes())
        && !names.is_empty()
        && names.len() <= usize::from(LAST_CALLER)
        && are_names(names)
    {
        Some(Form::Keep {
            callers: names.len() as u8,
            guard,
        })
    } else {
        None
    }
}

// The form that serves so many callers; `None` where none are named, or more than a desk may have.
fn serve_form(sessions: Sessions, callers: usize) -> Option<Form>
    ensures is { result ≡ serve_form sessions callers }
    ensures numbers { IfSome result HasNumbers }
{
    if callers >= 1 && callers <= usize::from(LAST_CALLER) {
        Some(Form::Serve {
            sessions,
            callers: callers as u8,
        })
    } else {
        None
    }
}

// The form that words with numbers are.
fn numbered(words: &[String]) -> Option<Form>
    ensures is { result ≡ numbered_form words.now }
    ensures numbers { IfSome result HasNumbers }
{
    match words {
        [word, person] if word.as_str() == "record" => record_form(person.as_str()),
        [word, supposed] if word.as_str() == "forecast" => forecast_form(supposed.as_str()),
        [word, commands, number] if word.as_str() == "gen" => {
            gen_form(Edition::One, commands.as_str(), number.as_str())
        }
        [word, vac, person] if word.as_str() == "when" => {
            when_form(vac.as_str(), person.as_str())
        }
        [word, commands, number, two] if word.as_str() == "gen" && two.as_str() == "2" => {
            gen_form(Edition::Two, commands.as_str(), number.as_str())
        }
        _ => None,
    }
}

// The form that tells the records of a person's tours; `None` where nobody may have the number.
fn record_form(person: &str) -> Option<Form>
    ensures is { result ≡ record_form (number_in person.now) }
    ensures numbers { IfSome result HasNumbers }
{
    let number = read_number(person)?;
    if number <= u64::from(NUMBER_LIMIT) {
        Some(Form::Tours(TourForm::Record(PersonNo::new(number as u32)?)))
    } else {
        None
    }
}

// The form that only supposes so many of a day's last commands; `None` where a day may not have so many.
fn forecast_form(supposed: &str) -> Option<Form>
    ensures is { result ≡ forecast_form (number_in supposed.now) }
    ensures numbers { IfSome result HasNumbers }
{
    let supposed = read_number(supposed)?;
    if supposed <= u64::from(MOST_SUPPOSED) {
        Some(Form::Day(DayForm::Forecast {
            supposed: supposed as u32,
        }))
    } else {
        None
    }
}

// The form that tells from when on nothing bars a person from a vacancy; `None` where no vacancy or nobody may have the number.
fn when_form(vac: &str, person: &str) -> Option<Form>
    ensures is { result ≡ when_form (number_in vac.now) (number_in person.now) }
    ensures numbers { IfSome result HasNumbers }
{
    let vac = read_number(vac)?;
    let person = read_number(person)?;
    let most = u64::from(NUMBER_LIMIT);
    if vac <= most && person <= most {
        Some(Form::Day(DayForm::When {
            vac: VacNo::new(vac as u32)?,
            person: PersonNo::new(person as u32)?,
        }))
    } else {
        None
    }
}

// The form that makes a day of so many commands from a number; `None` where a day may not have so many.
fn gen_form(edition: Edition, commands: &str, number: &str) -> Option<Form>
    ensures is { result ≡ gen_form edition (number_in commands.now) (number_in number.now) }
    ensures numbers { IfSome result HasNumbers }
{
    let commands = read_number(commands)?;
    let number = read_number(number)?;
    if commands >= u64::from(SET_UP) && commands <= u64::from(most_commands(edition)) {
        Some(Form::Gen {
            commands: commands as u32,
            number,
            edition,
        })
    } else {
        None
    }
}
