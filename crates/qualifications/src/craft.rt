ghost use Rattle.std.specs.Prelude.{◌≡◌, IfSome};
ghost use Rattle.qualifications.specs.Craft.{craft_text};
ghost use Rattle.qualifications.specs.declared.craft.Craft.{Craft as CraftValue};

/// What a person works as, and what a vacancy asks for.
#[derive(Clone, Copy, Debug)]
pub enum Craft {
    /// An engineer.
    E,
    /// A conductor.
    C,
    /// A brakeman.
    B,
}

impl PartialEq for Craft {
    ghost use Rattle.std.specs.Cmp.{partial_equiv_from_equiv};
    ghost use Rattle.qualifications.specs.Craft.{craft_eq, craft_eq-equivalence};

    ghost eq = { craft_eq };

    ghost laws = { partial_equiv_from_equiv craft_eq-equivalence };

    fn eq(&self, other: &Craft) -> bool {
        matches!(
            (self, other),
            (Craft::E, Craft::E) | (Craft::C, Craft::C) | (Craft::B, Craft::B)
        )
    }
}

impl Eq for Craft {
    ghost use Rattle.qualifications.specs.Craft.{craft_eq-equivalence};

    ghost laws = { craft_eq-equivalence };
}

impl Craft {
    /// The craft of the letter `E`, `C` or `B`; `None` for any other text.
    pub fn read(text: &[u8]) -> Option<Craft>
        ensures some { IfSome result (λ craft. text.now ≡ craft_text craft) }
        ensures only { (craft : CraftValue) → text.now ≡ craft_text craft → result ≡ Some craft }
    {
        match text {
            [b'E'] => Some(Craft::E),
            [b'C'] => Some(Craft::C),
            [b'B'] => Some(Craft::B),
            _ => None,
        }
    }

    /// The letter.
    pub fn text(self) -> &'static [u8]
        ensures { result.now ≡ craft_text self }
    {
        match self {
            Craft::E => b"E",
            Craft::C => b"C",
            Craft::B => b"B",
        }
    }
}
