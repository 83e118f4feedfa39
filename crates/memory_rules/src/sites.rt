//! What the instructions of a program make, as a table.
ghost use Rattle.std.specs.Prelude.{◌≡◌, ◌^◌, ◌<◌, length, Some, slice_get};
ghost use Rattle.std.specs.List.Sorted.{IsStrictlyIncreasing};
ghost use Rattle.memory_rules.specs.Sites.{IsMadeAt, places_of};

use std::marker::Model;

/// What an instruction makes.
#[derive(Clone, Copy)]
pub enum Makes {
    /// An object of so many words.
    Object(u64),
    /// An array, each element of which takes so many words, and its length where the instruction directly before it pushes one and
    /// control comes from there alone.
    Array { element: u8, constant: Option<i32> },
}

/// An instruction that makes objects, by its place in bytes of code.
#[derive(Clone, Copy)]
pub struct Site {
    pub place: u32,
    pub makes: Makes,
}

/// A method with code: the words of its frame, and its instructions that make objects, rising by place. Contracts see its parts.
#[derive(Drop)]
pub struct MethodSites {
    words: u32,
    sites: Vec<Site>,
}

impl Model for MethodSites {
    ghost use Rattle.std.specs.List.Sorted.{IsStrictlyIncreasing};
    ghost use Rattle.memory_rules.specs.Sites.{MethodNeeds, places_of};

    ghost Value = { MethodNeeds };

    ghost view = { λ k. record { words = k.words; sites = k.sites.items } };

    ghost invariant = { λ k. IsStrictlyIncreasing (places_of k.sites.items) };
}

/// What the site at a place makes, among sites that rise by place.
fn makes_at(sites: &[Site], place: u32) -> Option<Makes>
    requires { IsStrictlyIncreasing (places_of sites.now) }
    ensures { IsMadeAt sites.now place result }
{
    match sites.binary_search_by_key(&place, |site| site.place) {
        Ok(i) => Some(sites[i].makes),
        Err(_) => None,
    }
}

impl MethodSites {
    /// The method with these parts.
    pub fn new(words: u32, sites: Vec<Site>) -> Self
        requires { IsStrictlyIncreasing (places_of sites.items) }
        ensures { result ≡ record { words = words; sites = sites.items } }
    {
        MethodSites { words, sites }
    }

    /// The words of a frame.
    pub fn words(&self) -> u32
        ensures words { result ≡ self.now.words }
        ensures few { self.now.words < 2 ^ 32 }
    {
        self.words
    }

    /// What the instruction at a place makes, or `None` where it makes no object.
    pub fn made_at(&self, place: u32) -> Option<Makes>
        ensures { IsMadeAt self.now.sites place result }
    {
        makes_at(&self.sites, place)
    }
}

/// The methods with code of a program, by number. Contracts see it as the list.
#[derive(Drop)]
pub struct Sites {
    methods: Vec<MethodSites>,
}

impl Model for Sites {
    ghost use Rattle.std.specs.Prelude.{List};
    ghost use Rattle.memory_rules.specs.Sites.{MethodNeeds};

    ghost Value = { List MethodNeeds };

    ghost view = { λ s. s.methods.items };
}

impl Sites {
    /// The table of these methods.
    pub fn new(methods: Vec<MethodSites>) -> Self
        ensures { result ≡ methods.items }
    {
        Sites { methods }
    }

    /// How many methods there are.
    pub fn method_count(&self) -> usize
        ensures { result ≡ length self.now }
    {
        self.methods.len()
    }

    /// The method of this number.
    pub fn method(&self, number: u32) -> &MethodSites
        requires { number < length self.now }
        ensures { slice_get self.now number ≡ Some result.now }
    {
        &self.methods[number as usize]
    }
}
