ghost use Rattle.std.specs.Prelude.{◌≡◌, IfSome};
ghost use Rattle.desk_base.specs.Minute.{IsInYears};

use crate::{Clock, Offset};
use desk_base::Minute;
use std::time::{Clock as HostClock, SystemTime};

/// The system's clock, which counts UTC, read at an offset; at none it tells no minute. What it tells no clause says.
#[derive(Drop)]
pub struct SystemClock<R: HostClock + Copy> {
    rt: R,
    offset: Option<Offset>,
    told: Option<Minute>,
    asked: u64,
}

impl<R: HostClock + Copy> SystemClock<R> {
    /// The clock of this system at no offset, which was not asked yet.
    pub fn new(rt: R) -> SystemClock<R>
        ensures { ⟦<SystemClock<R> as Clock>⟧.minute result ≡ None }
    {
        SystemClock {
            rt,
            offset: None,
            told: None,
            asked: 0,
        }
    }

    /// A clock of the same system at this offset, or at none, which was not asked yet.
    pub fn at(&self, offset: Option<Offset>) -> SystemClock<R>
        ensures { ⟦<SystemClock<R> as Clock>⟧.minute result ≡ None }
    {
        SystemClock {
            rt: self.rt,
            offset,
            told: None,
            asked: 0,
        }
    }

    // The minute that it is, if the system tells it.
    fn read(&self) -> Option<Minute>
        ensures { IfSome result IsInYears }
    {
        let offset = self.offset?;
        let since = SystemTime::now(&self.rt)
            .ok()?
            .duration_since(SystemTime::UNIX_EPOCH)
            .ok()?;
        offset.civil(since.as_secs() / 60)
    }
}

impl<R: HostClock + Copy> Clock for SystemClock<R> {
    ghost minute = { λ s. s.told };

    ghost asked = { λ s. s.asked };

    fn now(&mut self) -> Option<Minute> {
        self.asked = self.asked.saturating_add(1);
        self.told = self.read();
        self.told
    }
}
