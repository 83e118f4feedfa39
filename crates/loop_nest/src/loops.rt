//! Loops, and how they are nested.
ghost use Rattle.std.specs.Prelude.{◌≡◌, [], ◌∷◌, ◌++◌, OnOk};
ghost use Rattle.loop_nest.specs.Nest.{NaturalLoop};

use std::alloc::AllocError;
use std::marker::Model;

/// A loop of a graph: a header, and the nodes from which a back edge to it is reached.
#[derive(Drop)]
pub struct Loop {
    header: u32,
    members: Vec<u32>,
    outer: Option<u32>,
}

impl Model for Loop {
    ghost use Rattle.loop_nest.specs.Nest.{NaturalLoop};

    ghost Value = { NaturalLoop };

    ghost view = { λ l. record { header = l.header; members = l.members.items; outer = l.outer } };
}

impl Loop {
    /// A loop with this header and these members, rising, and the number of its next outer loop.
    pub(crate) fn new(header: u32, members: Vec<u32>, outer: Option<u32>) -> Self
        ensures { result ≡ record { header = header; members = members.items; outer = outer } }
    {
        Loop {
            header,
            members,
            outer,
        }
    }

    /// The node at which the loop is entered.
    pub fn header(&self) -> u32
        ensures { result ≡ self.now.header }
    {
        self.header
    }

    /// The nodes of the loop, its header among them, rising.
    pub fn members(&self) -> &[u32]
        ensures { result.now ≡ self.now.members }
    {
        self.members.as_slice()
    }

    /// The nodes of the loop alone, rising.
    pub fn into_members(self) -> Vec<u32>
        ensures { result.items ≡ self.members }
    {
        let Loop {
            header: _,
            members,
            outer: _,
        } = self;
        members
    }

    /// Sets the number of the next outer loop.
    pub(crate) fn set_outer(&mut self, outer: Option<u32>)
        ensures { self.new ≡ record self.old { outer = outer } }
    {
        self.outer = outer;
    }

    /// Adds a member behind the others.
    pub(crate) fn add_member(&mut self, x: u32) -> Result<(), AllocError>
        ensures { OnOk result (self.new ≡ record self.old { members = self.old.members ++ x ∷ [] }) }
    {
        self.members.push(x)?;
        Ok(())
    }

    /// The number of the next outer loop, in the list of all loops.
    pub fn outer(&self) -> Option<u32>
        ensures { result ≡ self.now.outer }
    {
        self.outer
    }
}

/// The loops of a reducible graph.
#[derive(Drop)]
pub struct Nest {
    loops: Vec<Loop>,
}

impl Model for Nest {
    ghost use Rattle.std.specs.Prelude.{List};
    ghost use Rattle.loop_nest.specs.Nest.{NaturalLoop};

    ghost Value = { List NaturalLoop };

    ghost view = { λ n. n.loops.items };
}

impl Nest {
    /// The nest of these loops.
    pub(crate) fn new(loops: Vec<Loop>) -> Self
        ensures { result ≡ loops.items }
    {
        Nest { loops }
    }

    /// The loops, headers rising.
    pub fn loops(&self) -> &[Loop]
        ensures { result.now ≡ self.now }
    {
        self.loops.as_slice()
    }
}

/// Why a graph has no nest.
#[derive(Drop)]
pub enum NestFault {
    /// The reduction leaves these nodes beside node 0, rising.
    Irreducible(Vec<u32>),
    /// There is no memory.
    NoMemory,
}

impl From<AllocError> for NestFault {
    ghost use Rattle.std.specs.Prelude.{◌≡◌};
    ghost use Rattle.loop_nest.specs.declared.loops.NestFault.TheVariants.{NoMemory};

    ghost from_gives = { λ _ e. e ≡ NoMemory };

    fn from(_: AllocError) -> Self {
        NestFault::NoMemory
    }
}
