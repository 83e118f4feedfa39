//! What lines of the text say.
ghost use Rattle.std.specs.Prelude.{◌≡◌, IfOk};
ghost use Rattle.flow_facts.specs.Lines.{subject_of};

use crate::name::{Name, Names};
use base::NoMemory;
use std::alloc::Global;

/// A node of a method's graph, as a line names it.
#[derive(Clone, Copy, PartialEq, Eq, Hash)]
pub enum NodeName {
    /// The instruction at this place.
    Instruction(u32),
    /// The raise step at this place.
    RaiseStep(u32),
}

/// Where visits are counted, as a line says it.
#[derive(PartialEq, Eq, Hash, Drop)]
pub enum SaidScope {
    /// In an activation of the method.
    Alone,
    /// From each entry of the loop whose header is at this place to the next.
    PerLoop(u32),
    /// In an activation of the method of this name, with all that runs while it does.
    InMethod(Name),
}

/// A node of a method is visited at most so often.
#[derive(Drop)]
pub struct TotalLine {
    /// The method.
    pub name: Name,
    /// What is visited.
    pub node: NodeName,
    /// How often at most.
    pub most: u32,
    /// Where visits are counted.
    pub scope: SaidScope,
}

/// An invoke of a method runs some methods alone.
#[derive(Drop)]
pub struct OnlyLine {
    /// The method in which the invoke stands.
    pub name: Name,
    /// The place of the invoke.
    pub place: u32,
    /// The methods that it runs.
    pub targets: Names,
}

/// A fact, as a line says it.
#[derive(Drop)]
pub enum FactLine {
    /// How often a node is visited at most.
    Total(TotalLine),
    /// What an invoke runs.
    Only(OnlyLine),
}

/// A fact, and the number of its line, counted from 1.
#[derive(Drop)]
pub struct NumberedFact {
    /// The number of the line.
    pub line: u32,
    /// What it says.
    pub fact: FactLine,
}

/// What a text says once.
#[derive(PartialEq, Eq, Hash, Drop)]
pub(crate) enum Subject {
    /// How often a node of a method is visited in a scope.
    Visits(Name, NodeName, SaidScope),
    /// What an invoke of a method runs.
    Targets(Name, u32),
}

impl SaidScope {
    /// The same scope once more.
    fn copied(&self, alloc: Global) -> Result<SaidScope, NoMemory>
        ensures { IfOk result (λ copy. copy ≡ self.now) }
    {
        match self {
            SaidScope::Alone => Ok(SaidScope::Alone),
            SaidScope::PerLoop(place) => Ok(SaidScope::PerLoop(*place)),
            SaidScope::InMethod(name) => Ok(SaidScope::InMethod(name.copied(alloc)?)),
        }
    }
}

impl FactLine {
    /// What it says of what.
    pub(crate) fn subject(&self, alloc: Global) -> Result<Subject, NoMemory>
        ensures { IfOk result (λ subject. subject ≡ subject_of self.now) }
    {
        match self {
            FactLine::Total(total) => {
                let name = total.name.copied(alloc)?;
                Ok(Subject::Visits(name, total.node, total.scope.copied(alloc)?))
            }
            FactLine::Only(only) => Ok(Subject::Targets(only.name.copied(alloc)?, only.place)),
        }
    }
}
