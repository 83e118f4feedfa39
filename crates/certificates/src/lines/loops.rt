//! What a line says of a loop.
ghost use Rattle.std.specs.Prelude.{◌≡◌};

use std::marker::Model;

/// What a line says of a loop: whether it is a region, its header, what one iteration costs at most in
/// cycles, and its members, rising.
#[derive(Drop)]
pub struct LoopLine {
    region: bool,
    header: u32,
    cost: u64,
    members: Vec<u32>,
}

impl Model for LoopLine {
    ghost use Rattle.certificates.specs.Loop.{LoopSaid};

    ghost Value = { LoopSaid };

    ghost view = { λ l. record { region = l.region; header = l.header; cost = l.cost; members = l.members.items } };
}

impl LoopLine {
    /// The line of these parts.
    pub fn new(region: bool, header: u32, cost: u64, members: Vec<u32>) -> Self
        ensures { result ≡ record { region = region; header = header; cost = cost; members = members.items } }
    {
        LoopLine {
            region,
            header,
            cost,
            members,
        }
    }

    /// Whether the loop is a region.
    pub fn region(&self) -> bool
        ensures { result ≡ self.now.region }
    {
        self.region
    }

    /// The node at which the loop is entered.
    pub fn header(&self) -> u32
        ensures { result ≡ self.now.header }
    {
        self.header
    }

    /// What one iteration costs at most, in cycles.
    pub fn cost(&self) -> u64
        ensures { result ≡ self.now.cost }
    {
        self.cost
    }

    /// The nodes of the loop alone, rising.
    pub fn into_members(self) -> Vec<u32>
        ensures { result.items ≡ self.members }
    {
        self.members
    }
}
