//! Sections of a certificate.
ghost use Rattle.std.specs.Prelude.{◌≡◌, length};
ghost use Rattle.section_check.specs.Regions.{marked};

use std::marker::Model;

/// A loop of a section: its header, what one iteration costs at most in cycles, its members, rising, and
/// whether its entry pays the loads of a region.
#[derive(Debug, Drop)]
pub struct CertLoop {
    header: u32,
    iteration_cost: u64,
    members: Vec<u32>,
    region: bool,
}

impl Model for CertLoop {
    ghost use Rattle.section_check.specs.Section.{CertifiedLoop};

    ghost Value = { CertifiedLoop };

    ghost view = { λ l. record { header = l.header; iteration_cost = l.iteration_cost; members = l.members.items; region = l.region } };
}

impl CertLoop {
    ghost use Rattle.std.specs.Prelude.{◌≡◌, ◌^◌, ◌<◌};

    /// The loop with this header, these members, rising, and so many cycles at most for an iteration.
    pub fn new(header: u32, iteration_cost: u64, members: Vec<u32>, region: bool) -> Self
        ensures { result ≡ record { header = header; iteration_cost = iteration_cost; members = members.items; region = region } }
    {
        CertLoop {
            header,
            iteration_cost,
            members,
            region,
        }
    }

    /// The node at which the loop is entered.
    pub fn header(&self) -> u32
        ensures { result ≡ self.now.header }
    {
        self.header
    }

    /// What one iteration costs at most, in cycles.
    pub fn iteration_cost(&self) -> u64
        ensures value { result ≡ self.now.iteration_cost }
        ensures small { self.now.iteration_cost < 2 ^ 64 }
    {
        self.iteration_cost
    }

    /// The nodes of the loop, rising.
    pub fn members(&self) -> &[u32]
        ensures { result.now ≡ self.now.members }
    {
        self.members.as_slice()
    }

    /// The nodes of the loop alone, rising.
    pub fn into_members(self) -> Vec<u32>
        ensures { result.items ≡ self.members }
    {
        let CertLoop {
            header: _,
            iteration_cost: _,
            members,
            region: _,
        } = self;
        members
    }

    /// Says whether an entry pays the loads of a region.
    fn set_region(&mut self, region: bool)
        ensures { self.new ≡ record self.old { region = region } }
    {
        self.region = region;
    }

    /// Whether an entry pays the loads of a region.
    pub fn region(&self) -> bool
        ensures { result ≡ self.now.region }
    {
        self.region
    }
}

/// The listed nodes with their potentials, rising, and the loops, whose headers don't fall.
#[derive(Debug, Drop)]
pub struct Section {
    nodes: Vec<(u32, i128)>,
    loops: Vec<CertLoop>,
}

impl Model for Section {
    ghost use Rattle.section_check.specs.Section.{Certified};

    ghost Value = { Certified };

    ghost view = { λ s. record { nodes = s.nodes.items; loops = s.loops.items } };
}

impl Section {
    ghost use Rattle.std.specs.Prelude.{◌≡◌, length};
    ghost use Rattle.section_check.specs.Regions.{with_regions};

    /// The section with these nodes and their potentials, and these loops.
    pub fn new(nodes: Vec<(u32, i128)>, loops: Vec<CertLoop>) -> Self
        ensures { result ≡ record { nodes = nodes.items; loops = loops.items } }
    {
        Section { nodes, loops }
    }

    /// The listed nodes with their potentials.
    pub fn nodes(&self) -> &[(u32, i128)]
        ensures { result.now ≡ self.now.nodes }
    {
        self.nodes.as_slice()
    }

    /// The loops.
    pub fn loops(&self) -> &[CertLoop]
        ensures { result.now ≡ self.now.loops }
    {
        self.loops.as_slice()
    }

    /// The listed nodes and the loops, from which another section may be made.
    pub fn into_parts(self) -> (Vec<(u32, i128)>, Vec<CertLoop>)
        ensures nodes { result.0.items ≡ self.nodes }
        ensures loops { result.1.items ≡ self.loops }
    {
        let Section { nodes, loops } = self;
        (nodes, loops)
    }

    /// The same section, with the loops marked as regions of which it is said that they are.
    pub fn with_regions(self, regions: &[bool]) -> Section
        requires { length regions.now ≡ length self.loops }
        ensures { result ≡ with_regions self regions.now }
    {
        let Section { nodes, mut loops } = self;
        mark_regions(&mut loops, regions);
        Section { nodes, loops }
    }
}

/// Marks the loops as regions of which it is said that they are.
fn mark_regions(loops: &mut [CertLoop], regions: &[bool])
    requires { length regions.now ≡ length loops.old }
    ensures { loops.new ≡ marked loops.old regions.now }
{
    for i in 0..regions.len() {
        loops[i].set_region(regions[i]);
    }
}

/// Why a section isn't accepted: the first condition that fails.
#[derive(Clone, Copy, Debug, PartialEq, Eq)]
pub enum SectionFault {
    /// A node is misplaced among the listed nodes and the loops.
    Member(u32),
    /// The potentials don't descend along an edge.
    Edge(u32, u32),
    /// An exit isn't listed, or its potential is less than its cost.
    Exit(u32),
}
