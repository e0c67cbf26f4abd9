//! Commands that are drawn, the same in each run.
use command_parser::read_command;
use desk_model::{Cmd, Entry, Reply, Stated};
use duty_events::Event;
use std::alloc::{AllocError, Global};

/// Three boards at two places, and six persons of whom each is on two.
pub const SET_UP: [&[u8]; 21] = [
    b"2024-03-04 00:00,board,P1,pool,HOM",
    b"2024-03-04 00:00,board,X1,extra,AWY",
    b"2024-03-04 00:00,board,X2,extra,HOM",
    b"2024-03-04 00:00,enrol,101,E,HOM,-",
    b"2024-03-04 00:00,enrol,102,E,HOM,-",
    b"2024-03-04 00:00,enrol,103,E,HOM,-",
    b"2024-03-04 00:00,enrol,104,E,HOM,-",
    b"2024-03-04 00:00,enrol,105,E,HOM,-",
    b"2024-03-04 00:00,enrol,106,E,HOM,-",
    b"2024-03-04 00:00,list,101,P1",
    b"2024-03-04 00:00,list,102,P1",
    b"2024-03-04 00:00,list,103,P1",
    b"2024-03-04 00:00,list,104,P1",
    b"2024-03-04 00:00,list,101,X1",
    b"2024-03-04 00:00,list,102,X1",
    b"2024-03-04 00:00,list,105,X1",
    b"2024-03-04 00:00,list,106,X1",
    b"2024-03-04 00:00,list,103,X2",
    b"2024-03-04 00:00,list,104,X2",
    b"2024-03-04 00:00,list,105,X2",
    b"2024-03-04 00:00,list,106,X2",
];

/// The boards that are drawn, of which two aren't set up at first, and one never.
pub const BOARDS: [&[u8]; 6] = [b"P1", b"X1", b"X2", b"X3", b"P2", b"X9"];

/// A course of commands: the number that is drawn by, the minutes since the desk was opened, how many vacancies were made, and who has
/// an offer of the last, or 0.
#[derive(Drop)]
pub struct Course {
    pub number: u64,
    pub minutes: u32,
    pub made: u32,
    pub asked: u32,
}

impl Course {
    fn below(&mut self, limit: u32) -> u32 {
        self.number = self
            .number
            .wrapping_mul(6_364_136_223_846_793_005)
            .wrapping_add(1_442_695_040_888_963_407);
        ((self.number >> 33) % u64::from(limit.max(1))) as u32
    }

    fn board(&mut self) -> &'static str {
        match self.below(11) {
            0..=2 => "P1",
            3..=5 => "X1",
            6 | 7 => "X2",
            8 => "X3",
            9 => "P2",
            _ => "X9",
        }
    }

    fn place(&mut self) -> &'static str {
        match self.below(5) {
            0..=1 => "HOM",
            2..=3 => "AWY",
            _ => "FAR",
        }
    }

    // The chain of a vacancy.
    fn chain(&mut self) -> &'static str {
        match self.below(3) {
            0 => "P1+X1",
            1 => "X1",
            _ => "X2+X1",
        }
    }

    // A command about a person, stated at this time.
    fn of_person(&mut self, alloc: Global, at: &str) -> Result<String, AllocError> {
        let person = self.below(7).wrapping_add(101);
        let board = self.board();
        let place = self.place();
        match self.below(9) {
            0..=1 => format!(in alloc; "{at},list,{person},{board}"),
            2 => format!(in alloc; "{at},unlist,{person},{board}"),
            3 => format!(in alloc; "{at},off,{person}"),
            4 => format!(in alloc; "{at},on,{person}"),
            5..=6 => format!(in alloc; "{at},event,{person},duty,{at}"),
            _ => format!(in alloc; "{at},event,{person},final,{at},{place}"),
        }
    }

    // A command about a vacancy, stated at this time: the last is offered, or another made; or a board is set up.
    fn of_vacancy(&mut self, alloc: Global, at: &str) -> Result<String, AllocError> {
        let made = self.made;
        match self.below(5) {
            0 => format!(in alloc; "{at},board,X3,extra,AWY"),
            1..=2 => {
                self.made = made.wrapping_add(1);
                let (vac, chain) = (self.made, self.chain());
                format!(in alloc; "{at},vacancy,{vac},E,-,HOM,2024-03-30 08:00,600,0,{chain}")
            }
            _ => format!(in alloc; "{at},next,{made}"),
        }
    }

    // The answer of who has an offer, stated at this time.
    fn answer(&mut self, alloc: Global, at: &str) -> Result<String, AllocError> {
        let (made, asked) = (self.made, self.asked);
        match self.below(4) {
            0 => format!(in alloc; "{at},withdraw,{made},{asked}"),
            _ => format!(in alloc; "{at},decline,{made},{asked}"),
        }
    }

    // The line of the next command.
    fn line(&mut self, alloc: Global) -> Result<String, AllocError> {
        self.minutes = self.minutes.wrapping_add(self.below(90));
        let day = self.minutes / 1_440 + 4;
        let hour = self.minutes / 60 % 24;
        let minute = self.minutes % 60;
        let at = format!(in alloc; "2024-03-{day:02} {hour:02}:{minute:02}")?;
        if self.asked > 0 {
            self.answer(alloc, &at)
        } else if self.below(3) == 0 {
            self.of_vacancy(alloc, &at)
        } else {
            self.of_person(alloc, &at)
        }
    }

    /// The next command.
    pub fn next(&mut self, alloc: Global) -> Option<Stated> {
        let line = self.line(alloc).ok()?;
        read_command(alloc, line.as_bytes()).ok()
    }

    /// Takes in what it was answered.
    pub fn hear(&mut self, entry: &Entry) {
        self.asked = match entry.reply() {
            Reply::Offered { person, .. } => person.number(),
            _ => 0,
        };
    }
}

/// What a command is that was drawn, as one of eight bits: those that change an order, that set a board up, and that are refused.
pub fn kind(entry: &Entry) -> u32 {
    match (entry.accepted(), entry.reply()) {
        (Some(Cmd::Board { .. }), _) => 1,
        (Some(Cmd::List { .. }), _) => 2,
        (Some(Cmd::Unlist { .. }), _) => 4,
        (Some(Cmd::MarkOn { .. }), _) => 8,
        (Some(Cmd::Decline { .. }), _) => 16,
        (Some(Cmd::Happened { event, .. }), _) => match event {
            Event::Final(_, place) if place.text() == b"FAR".as_slice() => 32,
            Event::Final(..) => 64,
            _ => 0,
        },
        (None, Reply::Used | Reply::NotListed | Reply::Already) => 128,
        _ => 0,
    }
}
