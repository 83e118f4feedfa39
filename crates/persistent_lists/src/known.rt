//! Pairs of trees of which it is known that a test passes wherever they differ.
ghost use Rattle.std.specs.Prelude.{◌≡◌, [], IsTrue};
ghost use Rattle.std.specs.List.{Contains};
ghost use Rattle.persistent_lists.specs.Known.{IsRemembered};

use indexmap::IndexSet;
use std::alloc::Global;
use std::marker::Model;

/// Trees are remembered whose height is a multiple of this: to look for a pair of trees costs as much as to walk some levels of them.
const SPACING: u32 = 3;

/// How many pairs are remembered at most: they take some tens of megabytes.
const MOST_PAIRS: usize = 1_000_000;

/// Two trees of one height.
#[derive(Clone, Copy, PartialEq, Eq, Hash)]
pub(crate) struct TreePair {
    pub(crate) height: u32,
    pub(crate) first: u32,
    pub(crate) second: u32,
}

/// Pairs of trees, each once. Contracts see them as their list.
#[derive(Drop)]
pub(crate) struct Known {
    set: IndexSet<TreePair>,
}

impl Model for Known {
    ghost use Rattle.std.specs.Prelude.{List};
    ghost use Rattle.persistent_lists.specs.declared.known.TreePair.{TreePair};

    ghost Value = { List TreePair };

    ghost view = { λ a. a.set.keys };
}

impl Known {
    pub(crate) fn new(alloc: Global) -> Self
        ensures { result ≡ [] }
    {
        Known {
            set: IndexSet::new(alloc),
        }
    }

    /// Whether a pair is remembered.
    pub(crate) fn contains(&self, pair: TreePair) -> bool
        ensures { IsTrue result → Contains self.now pair }
    {
        pair.height % SPACING == 0 && self.set.contains(&pair)
    }

    /// Remembers a pair, where trees of its height are remembered. Where there are as many as there may be all are forgotten, and where
    /// memory is wanting the pair isn't remembered: what isn't remembered is walked once more.
    pub(crate) fn insert(&mut self, pair: TreePair)
        ensures { IsRemembered self.old pair self.new }
    {
        if pair.height % SPACING != 0 {
            return;
        }
        if self.set.len() < MOST_PAIRS {
            let _ = self.set.insert(pair);
        } else {
            self.set.clear();
        }
    }
}
