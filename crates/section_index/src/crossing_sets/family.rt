//! Families of sets of numbers.
ghost use Rattle.std.specs.Prelude.{◌≡◌, ◌<◌, length, map, All};
ghost use Rattle.std.specs.List.Sorted.{IsStrictlyIncreasing};
ghost use Rattle.section_index.specs.Family.{AreSets, set_at};

use std::marker::Model;

/// Sets of numbers below a size. The numbers of each set rise.
#[derive(Drop)]
pub struct Family {
    sets: Vec<Vec<u32>>,
    size: usize,
}

impl Model for Family {
    ghost use Rattle.std.specs.Prelude.{map};
    ghost use Rattle.section_index.specs.Family.{Sets, AreSets};

    ghost Value = { Sets };

    ghost view = { λ f. record { sets = map (λ s. s.items) f.sets.items; size = f.size } };

    ghost invariant = { λ f. AreSets (record { sets = map (λ s. s.items) f.sets.items; size = f.size }) };
}

impl Family {
    /// The family of these sets, whose numbers are below this size.
    pub fn new(sets: Vec<Vec<u32>>, size: usize) -> Self
        requires { AreSets (record { sets = map (λ s. s.items) sets.items; size = size }) }
        ensures { result ≡ record { sets = map (λ s. s.items) sets.items; size = size } }
    {
        Family { sets, size }
    }

    /// A number above all numbers of the sets.
    pub fn size(&self) -> usize
        ensures { result ≡ self.now.size }
    {
        self.size
    }

    /// How many sets there are.
    pub fn len(&self) -> usize
        ensures count { result ≡ length self.now.sets }
        ensures valid { AreSets self.now }
    {
        self.sets.len()
    }

    /// The numbers of set `i`.
    pub fn set(&self, i: usize) -> &[u32]
        requires { i < length self.now.sets }
        ensures numbers { result.now ≡ set_at self.now.sets i }
        ensures rising { IsStrictlyIncreasing result.now }
        ensures below { All (λ x. x < self.now.size) result.now }
    {
        self.sets[i].as_slice()
    }
}
