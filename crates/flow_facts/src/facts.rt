//! Facts of methods, by the methods' numbers.
ghost use Rattle.std.specs.Prelude.{◌≡◌};
ghost use Rattle.flow_facts.specs.Facts.{no_facts};

use std::alloc::Global;
use std::marker::Model;

/// Where visits are counted.
#[derive(Clone, Copy, PartialEq, Eq, Hash)]
pub enum Scope {
    /// In an activation of the method.
    Own,
    /// From each entry of the loop whose header is the instruction at this place to the next.
    Per(u32),
    /// In an activation of the method of this number, with all that runs while it does.
    In(u32),
}

/// These nodes of a method are visited at most so often together. A node 2p is the instruction at place p, and a node
/// 2p + 1 the raise step at it.
#[derive(Drop)]
pub struct CountFact {
    method: u32,
    nodes: Vec<u32>,
    most: u32,
    scope: Scope,
}

impl Model for CountFact {
    ghost use Rattle.flow_facts.specs.Facts.{CountFact};

    ghost Value = { CountFact };

    ghost view = { λ f. record { method = f.method; nodes = f.nodes.items; most = f.most; scope = f.scope } };
}

impl CountFact {
    /// The fact of these parts.
    pub fn new(method: u32, nodes: Vec<u32>, most: u32, scope: Scope) -> Self
        ensures { result ≡ record { method = method; nodes = nodes.items; most = most; scope = scope } }
    {
        CountFact {
            method,
            nodes,
            most,
            scope,
        }
    }

    /// The number of the method.
    pub fn method(&self) -> u32
        ensures { result ≡ self.now.method }
    {
        self.method
    }

    /// The nodes.
    pub fn nodes(&self) -> &[u32]
        ensures { result.now ≡ self.now.nodes }
    {
        self.nodes.as_slice()
    }

    /// How often they are visited at most.
    pub fn most(&self) -> u32
        ensures { result ≡ self.now.most }
    {
        self.most
    }

    /// Where their visits are counted.
    pub fn scope(&self) -> Scope
        ensures { result ≡ self.now.scope }
    {
        self.scope
    }
}

/// The invoke at a place of a method runs these methods alone.
#[derive(Drop)]
pub struct TargetFact {
    method: u32,
    place: u32,
    targets: Vec<u32>,
}

impl Model for TargetFact {
    ghost use Rattle.flow_facts.specs.Facts.{TargetFact};

    ghost Value = { TargetFact };

    ghost view = { λ f. record { method = f.method; place = f.place; targets = f.targets.items } };
}

impl TargetFact {
    /// The fact of these parts.
    pub fn new(method: u32, place: u32, targets: Vec<u32>) -> Self
        ensures { result ≡ record { method = method; place = place; targets = targets.items } }
    {
        TargetFact {
            method,
            place,
            targets,
        }
    }

    /// The number of the method.
    pub fn method(&self) -> u32
        ensures { result ≡ self.now.method }
    {
        self.method
    }

    /// The place of the invoke.
    pub fn place(&self) -> u32
        ensures { result ≡ self.now.place }
    {
        self.place
    }

    /// The numbers of the methods that it runs.
    pub fn targets(&self) -> &[u32]
        ensures { result.now ≡ self.now.targets }
    {
        self.targets.as_slice()
    }
}

/// Facts of a program.
#[derive(Drop)]
pub struct Facts {
    counts: Vec<CountFact>,
    targets: Vec<TargetFact>,
}

impl Model for Facts {
    ghost use Rattle.flow_facts.specs.Facts.{Facts};

    ghost Value = { Facts };

    ghost view = { λ f. record { counts = f.counts.items; targets = f.targets.items } };
}

impl Facts {
    /// No facts.
    pub fn none(alloc: Global) -> Self
        ensures { result ≡ no_facts }
    {
        Facts::new(Vec::new(alloc), Vec::new(alloc))
    }

    /// These facts.
    pub fn new(counts: Vec<CountFact>, targets: Vec<TargetFact>) -> Self
        ensures { result ≡ record { counts = counts.items; targets = targets.items } }
    {
        Facts { counts, targets }
    }

    /// How often places are visited.
    pub fn counts(&self) -> &[CountFact]
        ensures { result.now ≡ self.now.counts }
    {
        self.counts.as_slice()
    }

    /// Which methods invokes run.
    pub fn targets(&self) -> &[TargetFact]
        ensures { result.now ≡ self.now.targets }
    {
        self.targets.as_slice()
    }
}
