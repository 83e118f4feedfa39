//! Texts of 16-bit units (4.4.7).

ghost use Rattle.std.specs.Prelude.{◌≡◌, nat_eq};
ghost use Rattle.std.specs.Cmp.{partial_equiv_from_equiv, unsigned_Decides};
ghost use Rattle.std.specs.Cmp.Lexicographic.{pointwise, nat_list_eq_equiv};
ghost use Rattle.std.specs.Hash as fed;
ghost use Rattle.std.specs.Hash.{same_Alike, items_Alike};

use std::hash::{Hash, Hasher};
use std::marker::Model;

/// A text, as a list of 16-bit units. Contracts see it as that list.
#[derive(Drop)]
pub struct Units {
    units: Vec<u16>,
}

impl Model for Units {
    ghost use Rattle.std.specs.Prelude.{ℕ, List};

    ghost Value = { List ℕ };

    ghost view = { λ text. text.units.items };
}

impl Units {
    /// The text of these units.
    pub fn new(units: Vec<u16>) -> Self
        ensures { result ≡ units.items }
    {
        Units { units }
    }

    /// The units.
    pub fn as_slice(&self) -> &[u16]
        ensures { result.now ≡ self.now }
    {
        &self.units
    }

    /// The units, given back.
    pub fn into_vec(self) -> Vec<u16>
        ensures { result.items ≡ self }
    {
        self.units
    }
}

// Texts are equal, and hashed, as their lists: a map may have them as keys.
impl PartialEq for Units {
    ghost eq = { λ a b. pointwise nat_eq a b };

    ghost laws = { partial_equiv_from_equiv nat_list_eq_equiv };

    fn eq(&self, other: &Units) -> bool {
        self.as_slice() == other.as_slice()
    }
}

impl Eq for Units {
    ghost laws = { nat_list_eq_equiv };
}

impl Hash for Units {
    ghost hash_input = { λ text. fed.slice fed.u16 text };

    ghost respects_eq = { (items_Alike (same_Alike fed.u16 unsigned_Decides)).fed };

    fn hash<H: Hasher>(&self, state: &mut H) {
        self.as_slice().hash(state);
    }
}
