//! Which items the trees of each node may hold: the residues of their numbers modulo 64.
ghost use Rattle.std.specs.Prelude.{◌≡◌, [], get_or, IsTrue, OnOk};
ghost use Rattle.persistent_lists.specs.Residues.{MayHold, Covers, HaveMore};

use base::NoMemory;
use std::alloc::Global;
use std::marker::Model;

/// The residues of each node, at its number, a bit for each. Contracts see them as their list.
#[derive(Drop)]
pub(crate) struct Residues {
    list: Vec<u64>,
}

impl Model for Residues {
    ghost use Rattle.std.specs.Prelude.{ℕ, List};

    ghost Value = { List ℕ };

    ghost view = { λ a. a.list.items };
}

/// The residue of one item.
pub(crate) fn residue_of(item: u32) -> u64
    ensures { MayHold result item }
{
    1 << (item % 64)
}

/// Whether the item's residue is among these.
pub(crate) fn may_hold(residues: u64, item: u32) -> bool
    ensures { MayHold residues item → IsTrue result }
{
    (residues >> (item % 64)) % 2 == 1
}

/// These residues and those.
pub(crate) fn both(first: u64, second: u64) -> u64
    ensures first { Covers first result }
    ensures second { Covers second result }
{
    first | second
}

impl Residues {
    pub(crate) fn new(alloc: Global) -> Self
        ensures { result ≡ [] }
    {
        Residues {
            list: Vec::new(alloc),
        }
    }

    /// Those of a node; none where it is unknown.
    pub(crate) fn at(&self, node: u32) -> u64
        ensures { result ≡ get_or self.now node 0 }
    {
        match self.list.get(node as usize) {
            Some(residues) => *residues,
            None => 0,
        }
    }

    /// Adds residues to those of a node.
    pub(crate) fn add(&mut self, node: u32, residues: u64) -> Result<(), NoMemory>
        ensures more { HaveMore self.old self.new }
        ensures added { OnOk result (Covers residues (get_or self.new node 0)) }
    {
        let index = node as usize;
        if index >= self.list.len() {
            self.list.resize(index + 1, 0)?;
        }
        self.list[index] = both(self.list[index], residues);
        Ok(())
    }
}
