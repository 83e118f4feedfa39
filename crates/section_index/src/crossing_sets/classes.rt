//! Numbers in classes, which sets split.
ghost use Rattle.std.specs.Prelude.{◌≡◌, ◌+◌, ◌≤◌, ◌<◌, ℕ, length, All, IfOk, OnOk, MatchBool};
ghost use Rattle.std.specs.List.Sorted.{IsStrictlyIncreasing};
ghost use Rattle.section_index.specs.Classes.{class_of, AreTogether, AreApart, IsSplitBy, ArePlaces, AreMoved};

use std::alloc::{AllocError, Global};
use std::marker::Model;

/// Numbers below a size, each in a class. For each class there is a place among `places`, which is in use
/// while a set splits the classes.
#[derive(Drop)]
pub struct Classes {
    class: Vec<usize>,
    places: Vec<usize>,
}

impl Model for Classes {
    ghost use Rattle.std.specs.Prelude.{ℕ, ◌<◌, List, length, All};

    ghost Value = { List ℕ };

    ghost view = { λ c. c.class.items };

    ghost invariant = { λ c. All (λ k. k < length c.places.items) c.class.items };
}

/// Notes for the class of each number of a set the place in the set of a number of that class.
fn note_places(set: &[u32], class: &[usize], places: &mut [usize])
    requires numbers { All (λ x. x < length class.now) set.now }
    requires classes { All (λ k. k < length places.old) class.now }
    ensures { ArePlaces set.now class.now places.new }
{
    for i in 0..set.len() {
        places[class[set[i] as usize]] = i;
    }
}

/// Puts each number of a set into the class that stands at its class's place, from `base` on.
fn move_numbers(set: &[u32], places: &[usize], base: usize, class: &mut [usize])
    requires rising { IsStrictlyIncreasing set.now }
    requires numbers { All (λ x. x < length class.old) set.now }
    requires classes { All (λ k. k < length places.now) class.old }
    requires places { ArePlaces set.now class.old places.now }
    requires room { base + length set.now ≤ length places.now }
    ensures { AreMoved set.now places.now base class.old class.new }
{
    for i in 0..set.len() {
        let x = set[i] as usize;
        class[x] = base + places[class[x]];
    }
}

impl Classes {
    /// The numbers below `size`, all in one class.
    pub fn new(alloc: Global, size: usize) -> Result<Self, AllocError>
        ensures long { IfOk result (λ c. length c ≡ size) }
        ensures one { IfOk result (λ c. (x : ℕ) → class_of c x ≡ 0) }
    {
        let class = vec![in alloc; 0; size]?;
        let places = vec![in alloc; 0; 1]?;
        Ok(Classes { class, places })
    }

    /// Whether all numbers of a set are in one class.
    pub fn has_together(&self, set: &[u32]) -> bool
        requires { All (λ x. x < length self.now) set.now }
        ensures { MatchBool result (AreTogether self.now set.now) (AreApart self.now set.now) }
    {
        for i in 1..set.len() {
            if self.class[set[i] as usize] != self.class[set[0] as usize] {
                return false;
            }
        }
        true
    }

    /// Splits each class into the numbers that a set has and those that it lacks.
    pub fn split(&mut self, set: &[u32]) -> Result<(), AllocError>
        requires rising { IsStrictlyIncreasing set.now }
        requires numbers { All (λ x. x < length self.old) set.now }
        ensures { OnOk result (IsSplitBy set.now self.old self.new) }
    {
        let base = self.places.len();
        for _ in 0..set.len() {
            self.places.push(0)?;
        }
        note_places(set, &self.class, &mut self.places);
        move_numbers(set, &self.places, base, &mut self.class);
        Ok(())
    }
}
