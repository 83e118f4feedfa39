//! Names, and the numbers that are known of each.
ghost use Rattle.std.specs.Prelude.{◌≡◌, ◌↔◌, ℕ, ◌<◌, [], length, Contains, Some, IsTrue, OnOk, IfOk, slice_get, slice_index_or};
ghost use Rattle.source_headers.specs.Known.{IsWith, LacksSite};

use crate::site::Site;
use base::NoMemory;
use indexmap::IndexSet;
use std::alloc::Global;
use std::marker::Model;

/// Files with lines, or methods with places. Contracts see them as the names and the pairs of a name and a number.
#[derive(Drop)]
pub struct Known {
    names: IndexSet<Vec<u8>>,
    sites: IndexSet<Site>,
}

impl Model for Known {
    ghost use Rattle.std.specs.Prelude.{◌≡◌, ◌<◌, ℕ, [], length, map, All, slice_index_or};
    ghost use Rattle.source_headers.specs.Known.{KnownSites, site_by};

    ghost Value = { KnownSites };

    ghost view = { λ k. record { names = map (λ x. x.items) k.names.keys; sites = map (site_by (map (λ x. x.items) k.names.keys)) k.sites.keys } };

    // Each site has the number of a name, and no name has two numbers.
    ghost invariant = { λ k. All (λ s. s.name < length (map (λ x. x.items) k.names.keys)) k.sites.keys
        × ((i : ℕ) (j : ℕ) → i < length (map (λ x. x.items) k.names.keys) → j < length (map (λ x. x.items) k.names.keys)
        → slice_index_or (map (λ x. x.items) k.names.keys) i [] ≡ slice_index_or (map (λ x. x.items) k.names.keys) j [] → i ≡ j) };
}

impl Known {
    /// No names.
    pub(crate) fn new(alloc: Global) -> Self
        ensures { result ≡ record { names = []; sites = [] } }
    {
        Known {
            names: IndexSet::new(alloc),
            sites: IndexSet::new(alloc),
        }
    }

    /// Adds a name, and says which place among the names it has.
    fn add_name(&mut self, alloc: Global, name: &[u8]) -> Result<usize, NoMemory>
        ensures names { OnOk result (IsWith self.old.names self.new.names (λ x. x ≡ name.now)) }
        ensures sites { OnOk result (self.new.sites ≡ self.old.sites) }
        ensures index { IfOk result (λ i. slice_get self.new.names i ≡ Some name.now) }
    {
        let name = Vec::from_slice(alloc, name)?;
        let (index, _) = self.names.insert_full(name)?;
        Ok(index)
    }

    /// Adds a number of the name at this place among the names.
    fn add_number(&mut self, name: usize, number: u32) -> Result<(), NoMemory>
        requires { name < length self.old.names }
        ensures names { self.new.names ≡ self.old.names }
        ensures sites { OnOk result (IsWith self.old.sites self.new.sites (λ s. s ≡ (slice_index_or self.old.names name [], number))) }
    {
        self.sites.insert(Site { name, number })?;
        Ok(())
    }

    /// Adds numbers of the name at this place among the names.
    fn add_numbers(&mut self, name: usize, numbers: &[u32]) -> Result<(), NoMemory>
        requires { name < length self.old.names }
        ensures names { self.new.names ≡ self.old.names }
        ensures sites { OnOk result (IsWith self.old.sites self.new.sites (λ s. (s.0 ≡ slice_index_or self.old.names name []) × Contains numbers.now s.1)) }
    {
        for number in numbers {
            self.add_number(name, *number)?;
        }
        Ok(())
    }

    /// Adds a name, and numbers of it.
    pub(crate) fn add(
        &mut self,
        alloc: Global,
        name: &[u8],
        numbers: &[u32],
    ) -> Result<(), NoMemory>
        ensures names { OnOk result (IsWith self.old.names self.new.names (λ x. x ≡ name.now)) }
        ensures sites { OnOk result (IsWith self.old.sites self.new.sites (λ s. (s.0 ≡ name.now) × Contains numbers.now s.1)) }
    {
        let index = self.add_name(alloc, name)?;
        self.add_numbers(index, numbers)
    }

    /// Whether the name is known, and the number isn't known of it.
    pub(crate) fn lacks(&self, name: &[u8], number: u32) -> bool
        ensures { IsTrue result ↔ LacksSite self.now name.now number }
    {
        match self.names.get_index_of(name) {
            Some(name) => !self.sites.contains(&Site { name, number }),
            None => false,
        }
    }
}
