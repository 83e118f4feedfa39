//! Flags of the nodes of a span.

ghost use Rattle.std.specs.Prelude.{◌≡◌, ◌<◌, ◌≤◌, true, false, length, replicate, set, IfOk, IsTrue};
ghost use Rattle.loop_marks.specs.Reach.{flag_at};

use base::NoMemory;
use std::alloc::Global;
use std::marker::Model;

/// Flags of nodes, of which only those of a span are kept: that of each other node isn't set.
#[derive(Drop)]
pub struct NodeFlags {
    first: u32,
    flags: Vec<bool>,
}

impl Model for NodeFlags {
    ghost use Rattle.std.specs.Prelude.{◌++◌, false, replicate};
    ghost use Rattle.loop_marks.specs.Flags.{Flags};

    ghost Value = { Flags };

    ghost view = { λ f. record { first = f.first; items = replicate f.first false ++ f.flags.items } };
}

impl NodeFlags {
    /// Flags of the nodes from `first` up to `end`, none of which is set.
    pub(crate) fn new(alloc: Global, first: u32, end: usize) -> Result<Self, NoMemory>
        requires { first ≤ end }
        ensures { IfOk result (λ f. f ≡ record { first = first; items = replicate end false }) }
    {
        let flags = vec![in alloc; false; end - first as usize]?;
        Ok(NodeFlags { first, flags })
    }

    /// Flags of the same nodes, none of which is set.
    pub(crate) fn cleared(&self, alloc: Global) -> Result<Self, NoMemory>
        ensures { IfOk result (λ f. f ≡ record { first = self.now.first; items = replicate (length self.now.items) false }) }
    {
        let flags = vec![in alloc; false; self.flags.len()]?;
        Ok(NodeFlags {
            first: self.first,
            flags,
        })
    }

    /// Sets the flag of a node of the span.
    pub(crate) fn mark(&mut self, node: u32)
        requires first { self.old.first ≤ node }
        requires within { node < length self.old.items }
        ensures { self.new ≡ record { first = self.old.first; items = set self.old.items node true } }
    {
        let index = node as usize - self.first as usize;
        self.flags[index] = true;
    }
}

/// Whether the flag of a node is set.
pub fn is_flagged(flags: &NodeFlags, node: u64) -> bool
    ensures flag { result ≡ flag_at flags.now.items node }
    ensures first { IsTrue result → flags.now.first ≤ node }
    ensures within { IsTrue result → node < length flags.now.items }
{
    let first = u64::from(flags.first);
    if node < first {
        return false;
    }
    let index = node - first;
    index < flags.flags.len() as u64 && flags.flags[index as usize]
}
