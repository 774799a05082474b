//! Which of the two forms the texts of a disc's lists have.

ghost use Rattle.std.specs.Prelude.{◌≡◌, ◌≤◌};
ghost use Rattle.model_geometry.specs.declared.TheConstants.{MOST_SPARES};
ghost use Rattle.model_lists.specs.Values.{most_of};

/// The management version of a disc.
#[derive(Clone, Copy, Debug, PartialEq, Eq)]
pub enum Version {
    /// The secondary list is one block of each area.
    One,
    /// The secondary list is two blocks of each area.
    Two,
}

impl Version {
    /// How many spares in all a disc of this version may have, and how many entries its secondary list.
    pub fn most_spares(self) -> u32
        ensures most { result ≡ most_of self }
        ensures least { MOST_SPARES ≤ result }
    {
        match self {
            Version::One => 4_092,
            Version::Two => 8_184,
        }
    }
}
