//! The values of the sections that were checked.
ghost use Rattle.std.specs.Prelude.{◌≡◌, ◌<◌, IfOk, None, length, replicate};
ghost use Rattle.certificates.specs.Certificate.{is_inside};
ghost use Rattle.cert_checker.specs.Setting.{with_first};

use base::NoMemory;
use certificates::{CertSection, SectionKind};
use std::alloc::Global;
use std::marker::Model;

/// The value of a section.
#[derive(Clone, Copy)]
pub struct SectionValue {
    pub method: u32,
    pub inside: bool,
    pub value: Option<u64>,
}

/// The values of the sections that were checked, in order, and by method the first of each kind.
#[derive(Drop)]
pub struct Values {
    listed: Vec<SectionValue>,
    inside: Vec<Option<Option<u64>>>,
    others: Vec<Option<Option<u64>>>,
}

impl Model for Values {
    ghost use Rattle.std.specs.Prelude.{List, map, length, true, false};
    ghost use Rattle.bound_rules.specs.Told.{Valued};
    ghost use Rattle.cert_checker.specs.Setting.{SectionValues, AreFirst, valued_of};

    ghost Value = { SectionValues };

    ghost view = { λ v. record { valued = map valued_of v.listed.items; methods = length v.inside.items } };

    ghost invariant = { λ v. AreFirst true (record { valued = map valued_of v.listed.items; methods = length v.inside.items }) v.inside.items
        × AreFirst false (record { valued = map valued_of v.listed.items; methods = length v.inside.items }) v.others.items };
}

/// Whether a section of the kind is inside.
pub fn is_inside(kind: SectionKind) -> bool
    ensures { result ≡ is_inside kind }
{
    matches!(kind, SectionKind::Inside)
}

impl Values {
    ghost use Rattle.std.specs.Prelude.{◌≡◌, ◌<◌, ◌++◌, [], ◌∷◌, IfOk, OnOk};
    ghost use Rattle.bound_rules.specs.Told.{value_in, section_value};

    /// No values, of so many methods.
    pub fn new(alloc: Global, methods: u32) -> Result<Self, NoMemory>
        ensures { IfOk result (λ v. v ≡ record { valued = []; methods = methods }) }
    {
        let inside = none_yet(alloc, methods)?;
        let others = none_yet(alloc, methods)?;
        Ok(Values {
            listed: Vec::new(alloc),
            inside,
            others,
        })
    }

    /// What they say of a method: the value of its first section that is inside, or of its first section of another kind.
    pub fn said(&self, inside: bool, m: u32) -> Option<Option<u64>>
        requires { m < self.now.methods }
        ensures { result ≡ value_in inside m self.now.valued }
    {
        if inside {
            self.inside[m as usize]
        } else {
            self.others[m as usize]
        }
    }

    /// Adds the value of a section.
    pub fn add(&mut self, s: &CertSection, value: Option<u64>) -> Result<(), NoMemory>
        requires { s.now.method < self.old.methods }
        ensures { OnOk result (self.new ≡ record self.old { valued = self.old.valued ++ section_value s.now value ∷ [] }) }
    {
        let inside = is_inside(s.kind);
        self.listed.push(SectionValue {
            method: s.method,
            inside,
            value,
        })?;
        if inside {
            set_first(&mut self.inside, s.method, value);
        } else {
            set_first(&mut self.others, s.method, value);
        }
        Ok(())
    }
}

/// No value of each of so many methods.
fn none_yet(alloc: Global, methods: u32) -> Result<Vec<Option<Option<u64>>>, NoMemory>
    ensures { IfOk result (λ firsts. firsts.items ≡ replicate methods None) }
{
    Ok(vec![in alloc; None; methods as usize]?)
}

/// Puts down a value for a method that has none.
fn set_first(firsts: &mut [Option<Option<u64>>], m: u32, value: Option<u64>)
    requires { m < length firsts.old }
    ensures { firsts.new ≡ with_first firsts.old m value }
{
    if firsts[m as usize].is_none() {
        firsts[m as usize] = Some(value);
    }
}
