//! How a generated day goes on: its number, its minute and its vacancies, and the rules of its commands.
ghost use Rattle.std.specs.Prelude.{◌≡◌, ◌<◌, ◌≤◌, max, slice_get};
ghost use Rattle.desk_model.specs.declared.limits.TheConstants.{DUTY_PLAN_LIMIT};
ghost use Rattle.day_gen.specs.Day.{first_course, turn_at};
ghost use Rattle.day_gen.specs.Draws.{next_number, moved, drawn};
ghost use Rattle.day_gen.specs.Room.{HasRoom, HasVacancyRoom};
ghost use Rattle.day_gen.specs.SetUp.{set_up};
ghost use Rattle.day_gen.specs.Rules.{answer_turn, report_of, report_turn, duty_of, release_turn, hours_turn, place_turn, least_duty, vacancy_turn, is_relief, idle_turn, turn_by};

use crate::codes::Codes;
use crate::due::Due;
use crate::numbers::{FIRST_MONTH, INCREMENT, MULTIPLIER};
use crate::plan::Plan;
use crate::set_up::{no_quals, set_up_command};
use crate::{PERSONS, SET_UP};
use desk_base::{Minute, Month, PersonNo, VacNo};
use desk_model::{Cmd, Edition, Job};
use duty_events::Event;

/// How far a generator has come.
#[derive(Clone, Copy, Debug)]
pub(crate) struct Course {
    /// The number that is drawn by.
    pub(crate) number: u64,
    /// The minute at which commands are stated.
    pub(crate) minute: Minute,
    /// How many vacancies were made, whatever was answered.
    pub(crate) made: u32,
}

// The number that comes after this one.
fn next_number(number: u64) -> u64
    ensures { result ≡ next_number number }
{
    number.wrapping_mul(MULTIPLIER).wrapping_add(INCREMENT)
}

// The later of the minute and the job's report.
fn later(minute: Minute, job: &Option<Job>) -> Minute
    ensures { result ≡ max minute (report_of job.now) }
{
    match job {
        Some(job) if job.report() > minute => job.report(),
        _ => minute,
    }
}

// The job's planned minutes on duty.
fn duty_of(job: &Option<Job>) -> u16
    ensures value { result ≡ duty_of job.now }
    ensures most { result ≤ DUTY_PLAN_LIMIT }
{
    match job {
        Some(job) => job.duty(),
        None => 0,
    }
}

// The least minutes on duty of a job.
fn least_duty(relief: bool) -> u16
    ensures { result ≡ least_duty relief }
{
    if relief { 721 } else { 60 }
}

// Whether the vacancy is a relief one, by what was drawn.
fn is_relief(edition: Edition, draw: u64) -> bool
    ensures { result ≡ is_relief edition draw }
{
    match edition {
        Edition::One => false,
        Edition::Two => draw == 7,
    }
}

impl Course {
    /// That of a generator which has this number and gave no command yet.
    pub(crate) fn first(number: u64) -> Course
        ensures { result ≡ first_course number }
    {
        Course {
            number,
            minute: Month::new(FIRST_MONTH).unwrap().first(),
            made: 0,
        }
    }

    /// Moves the number, and draws one of 0 to count - 1 by it.
    pub(crate) fn draw(&mut self, count: u64) -> u64
        requires { 0 < count }
        ensures course { self.new ≡ moved self.old }
        ensures value { result ≡ drawn (moved self.old) count }
        ensures range { result < count }
    {
        self.number = next_number(self.number);
        (self.number >> 33) % count
    }

    /// The next command, where so many were given: one that sets the desk up, or what the rules give by what there is to do, and
    /// for which job. It stays a call: inlined, each part of a command is carried along for all others.
    #[inline(never)]
    pub(crate) fn turn(
        &mut self,
        codes: &Codes,
        edition: Edition,
        given: u32,
        job: &Option<Job>,
        due: Due,
    ) -> Cmd
        requires { HasRoom self.old }
        ensures course { self.new ≡ (turn_at edition self.old (slice_get set_up given) job.now due).course }
        ensures cmd { result ≡ (turn_at edition self.old (slice_get set_up given) job.now due).cmd }
    {
        if given < SET_UP {
            set_up_command(given)
        } else {
            self.by_rule(codes, edition, job, due)
        }
    }

    // What the rules give.
    fn by_rule(&mut self, codes: &Codes, edition: Edition, job: &Option<Job>, due: Due) -> Cmd
        requires { HasRoom self.old }
        ensures course { self.new ≡ (turn_by edition self.old job.now due).course }
        ensures cmd { result ≡ (turn_by edition self.old job.now due).cmd }
    {
        match due {
            Due::Answer { vac, person } => self.answer(vac, person),
            Due::Report { person, .. } => self.report(job, person),
            Due::Release { person } => self.release(codes, job, person),
            Due::Call { vac } => Cmd::Next { vac },
            Due::Nothing => self.idle(codes, edition),
        }
    }

    // An offer is accepted, declined or taken back.
    fn answer(&mut self, vac: VacNo, person: PersonNo) -> Cmd
        ensures course { self.new ≡ (answer_turn self.old vac person).course }
        ensures cmd { result ≡ (answer_turn self.old vac person).cmd }
    {
        match self.draw(10) {
            0..=6 => Cmd::Accept { vac, person },
            7..=8 => Cmd::Decline { vac, person },
            _ => Cmd::Withdraw { vac, person },
        }
    }

    // Who accepted goes on duty.
    fn report(&mut self, job: &Option<Job>, person: PersonNo) -> Cmd
        ensures course { self.new ≡ (report_turn self.old job.now person).course }
        ensures cmd { result ≡ (report_turn self.old job.now person).cmd }
    {
        self.minute = later(self.minute, job);
        Cmd::Happened {
            person,
            event: Event::Duty(self.minute),
        }
    }

    // Who went on duty is released.
    fn release(&mut self, codes: &Codes, job: &Option<Job>, person: PersonNo) -> Cmd
        requires { HasRoom self.old }
        ensures course { self.new ≡ (release_turn self.old job.now person).course }
        ensures cmd { result ≡ (release_turn self.old job.now person).cmd }
    {
        self.minute = self.minute.after(u64::from(duty_of(job)));
        Cmd::Happened {
            person,
            event: Event::Final(self.minute, codes.home()),
        }
    }

    // There is nothing to do: time goes by, and then something is asked or a vacancy made.
    fn idle(&mut self, codes: &Codes, edition: Edition) -> Cmd
        requires { HasRoom self.old }
        ensures course { self.new ≡ (idle_turn edition self.old).course }
        ensures cmd { result ≡ (idle_turn edition self.old).cmd }
    {
        let minutes = self.draw(10);
        self.minute = self.minute.after(minutes);
        match self.draw(8) {
            0 => self.hours(),
            1 => self.place(codes),
            draw => self.vacancy(codes, is_relief(edition, draw)),
        }
    }

    // The hours of a person are asked.
    fn hours(&mut self) -> Cmd
        ensures course { self.new ≡ (hours_turn self.old).course }
        ensures cmd { result ≡ (hours_turn self.old).cmd }
    {
        let person = 1 + self.draw(u64::from(PERSONS)) as u32;
        Cmd::Hours {
            person: PersonNo::new(person).unwrap(),
            month: Month::of(self.minute),
        }
    }

    // It is asked who stands at a position.
    fn place(&mut self, codes: &Codes) -> Cmd
        ensures course { self.new ≡ (place_turn self.old).course }
        ensures cmd { result ≡ (place_turn self.old).cmd }
    {
        Cmd::At {
            board: codes.pool(),
            place: 1 + self.draw(12) as u16,
        }
    }

    // A vacancy is made.
    fn vacancy(&mut self, codes: &Codes, relief: bool) -> Cmd
        requires { HasVacancyRoom self.old }
        ensures course { self.new ≡ (vacancy_turn self.old relief).course }
        ensures cmd { result ≡ (vacancy_turn self.old relief).cmd }
    {
        let plan = Plan::draw(self);
        self.made += 1;
        let job = Job::new(
            VacNo::new(self.made).unwrap(),
            plan.craft,
            no_quals(),
            codes.home(),
            self.minute.after(60 + plan.wait),
            least_duty(relief) + plan.length,
            0,
            *codes.chain_of(plan.craft),
            relief,
        );
        Cmd::Vacancy(job.unwrap())
    }
}
