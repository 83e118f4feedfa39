//! Pairs of nodes, each once.
ghost use Rattle.std.specs.Prelude.{◌≡◌, [], IfOk};
ghost use Rattle.persistent_lists.specs.Trees.{pair_at, IsNode, Extends};

use base::NoMemory;
use indexmap::IndexSet;
use std::alloc::Global;
use std::marker::Model;

/// Pairs of numbers of nodes, each once, in the order in which they came. The number of a pair is its place. Contracts see them as
/// their list.
#[derive(Drop)]
pub(crate) struct Pairs {
    set: IndexSet<(u32, u32)>,
}

impl Model for Pairs {
    ghost use Rattle.std.specs.Prelude.{ℕ, List};

    ghost Value = { List (ℕ × ℕ) };

    ghost view = { λ a. a.set.keys };
}

impl Pairs {
    pub(crate) fn new(alloc: Global) -> Self
        ensures { result ≡ [] }
    {
        Pairs {
            set: IndexSet::new(alloc),
        }
    }

    /// The pair of a number; two zeros where there is none.
    pub(crate) fn get(&self, node: u32) -> (u32, u32)
        ensures { result ≡ pair_at self.now node }
    {
        match self.set.get_index(node as usize) {
            Some(pair) => *pair,
            None => (0, 0),
        }
    }

    /// The number of a pair, which is added unless it is among them.
    pub(crate) fn insert(&mut self, pair: (u32, u32)) -> Result<u32, NoMemory>
        ensures more { Extends self.old self.new }
        ensures node { IfOk result (IsNode self.new pair) }
    {
        let (index, _) = self.set.insert_full(pair)?;
        match u32::try_from(index) {
            Ok(node) => Ok(node),
            Err(_) => Err(NoMemory),
        }
    }
}
