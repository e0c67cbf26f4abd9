ghost use Rattle.std.specs.Prelude.{◌≡◌};
ghost use Rattle.qualifications.specs.declared.craft.Craft.TheVariants as craft;
ghost use Rattle.day_gen.specs.SetUp.{HOME, pool_of};
ghost use Rattle.day_gen.specs.Rules.{chain_of};

use crate::set_up::{chain_of, home, pool_of};
use desk_base::Code;
use desk_model::Chain;
use qualifications::Craft;

/// The codes that commands of a generated day name, read once: its place, the pool of its engineers, and the boards from which the
/// vacancies of engineers and of conductors are filled.
#[derive(Debug, Drop)]
pub(crate) struct Codes {
    home: Code,
    pool: Code,
    engineers: Chain,
    conductors: Chain,
    ghost home_is: { home ≡ HOME },
    ghost pool_is: { pool ≡ pool_of craft.E },
    ghost engineers_is: { engineers ≡ chain_of craft.E },
    ghost conductors_is: { conductors ≡ chain_of craft.C },
}

impl Codes {
    /// Reads them.
    pub(crate) fn read() -> Codes {
        Codes {
            home: home(),
            pool: pool_of(Craft::E),
            engineers: chain_of(Craft::E),
            conductors: chain_of(Craft::C),
        }
    }

    /// The one place.
    pub(crate) fn home(&self) -> Code
        ensures { result ≡ HOME }
    {
        self.home
    }

    /// The pool of the engineers.
    pub(crate) fn pool(&self) -> Code
        ensures { result ≡ pool_of craft.E }
    {
        self.pool
    }

    /// The boards from which a vacancy of a craft is filled.
    pub(crate) fn chain_of(&self, craft: Craft) -> &Chain
        ensures { result.now ≡ chain_of craft }
    {
        match craft {
            Craft::E => &self.engineers,
            _ => &self.conductors,
        }
    }
}
