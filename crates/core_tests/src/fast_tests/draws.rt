//! Numbers that are drawn, the same in each run, and what they stand for.
use desk_base::{Code, Minute, Span};
use desk_model::Chain;
use duty_events::{Event, Kind};
use qualifications::{Craft, Quals};

/// Numbers that are drawn.
#[derive(Drop)]
pub struct Draws {
    pub state: u64,
}

// The boards from 0: two pools, and three extra boards of which the second is at AWY. The last code is no board.
fn board_of(number: u32) -> &'static [u8] {
    match number {
        0 => b"P1",
        1 => b"P2",
        2 => b"X1",
        3 => b"X2",
        4 => b"X3",
        _ => b"N1",
    }
}

fn chain_of(number: u32) -> &'static [u8] {
    match number {
        0 => b"P1",
        1 => b"P1+X1",
        2 => b"X1+X2",
        3 => b"P2+X3+X2",
        4 => b"P1+X1+X2+X3",
        5 => b"X2",
        6 => b"P2+X1",
        7 => b"X3+X1+X2",
        8 => b"P1+P2",
        _ => b"P1+N1",
    }
}

impl Draws {
    /// A number below a limit.
    pub fn below(&mut self, limit: u32) -> u32 {
        self.state = self
            .state
            .wrapping_mul(6_364_136_223_846_793_005)
            .wrapping_add(1_442_695_040_888_963_407);
        ((self.state >> 33) % u64::from(limit.max(1))) as u32
    }

    /// A number from which others are drawn.
    pub fn state(&mut self) -> u64 {
        self.below(2);
        (self.state ^ (self.state >> 29)).wrapping_mul(0x9E37_79B9_7F4A_7C15)
    }

    /// A number of sixteen bits below a limit.
    pub fn short(&mut self, limit: u16) -> u16 {
        u16::try_from(self.below(u32::from(limit))).unwrap_or(0)
    }

    /// A person, one of twelve or now and then nobody.
    pub fn person(&mut self) -> u32 {
        self.below(13).saturating_add(1)
    }

    /// A board, or now and then a code that is none.
    pub fn board(&mut self) -> Option<Code> {
        Code::read(board_of(self.below(6)))
    }

    /// A chain of 1 to 4 boards, now and then a wrong one.
    pub fn chain(&mut self) -> Option<Chain> {
        Chain::read(chain_of(self.below(10)))
    }

    /// An engineer mostly.
    pub fn craft(&mut self) -> Craft {
        match self.below(12) {
            0 => Craft::C,
            _ => Craft::E,
        }
    }

    /// None mostly.
    pub fn quals(&mut self) -> Option<Quals> {
        match self.below(8) {
            0 => Quals::read(b"5"),
            _ => Quals::read(b"-"),
        }
    }

    /// HOM mostly, and else AWY or FAR.
    pub fn place(&mut self) -> Option<Code> {
        match self.below(8) {
            0 => Code::read(b"AWY"),
            1 => Code::read(b"FAR"),
            _ => Code::read(b"HOM"),
        }
    }

    fn kind(&mut self) -> Kind {
        match self.below(3) {
            0 => Kind::D,
            1 => Kind::P,
            _ => Kind::O,
        }
    }

    /// An event that begins up to half an hour before this minute.
    pub fn event(&mut self, now: u64) -> Option<Event> {
        let early = u64::from(self.below(31));
        let at = Minute::new(now.saturating_sub(early))?;
        let event = match self.below(14) {
            0 => Event::Ride(at),
            1 | 2 => Event::Duty(at),
            3 => Event::Interim(at, self.kind(), self.place()?),
            4 => Event::Resume(at),
            5 => Event::Relieve(at),
            6 => Event::RideHome(at),
            7..=12 => Event::Final(at, self.place()?),
            _ => {
                let long = u64::from(self.below(45).saturating_add(1));
                Event::Other(
                    Span::new(at, Minute::new(at.number() + long)?)?,
                    self.place()?,
                )
            }
        };
        Some(event)
    }
}
