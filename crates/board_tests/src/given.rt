//! What the cases are made of: persons and minutes of numbers, and numbers that are drawn.
ghost use Rattle.std.specs.Prelude.{◌<◌};

use desk_base::{Minute, PersonNo};
use std::test::Fail;

pub(crate) fn person(number: u32) -> Result<PersonNo, Fail> {
    Ok(PersonNo::new(number).ok_or("no person")?)
}

pub(crate) fn minute(number: u64) -> Result<Minute, Fail> {
    Ok(Minute::new(number).ok_or("no minute")?)
}

/// Numbers in no plain order, the same in each run.
#[derive(Drop)]
pub(crate) struct Draws {
    pub state: u64,
}

impl Draws {
    /// The next number, below one.
    pub(crate) fn below(&mut self, limit: u32) -> u32
        requires { 0 < limit }
        ensures { result < limit }
    {
        self.state = self
            .state
            .wrapping_mul(6_364_136_223_846_793_005)
            .wrapping_add(1_442_695_040_888_963_407);
        (self.state >> 33) as u32 % limit
    }
}
