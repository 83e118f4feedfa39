//! The lengths of arrays.
ghost use Rattle.std.specs.Prelude.{◌≡◌, ◌<◌, ◌*◌, ℕ, length};
ghost use Rattle.std.specs.List.Sorted.{IsStrictlyIncreasing};
ghost use Rattle.memory_bound.specs.Setting.{ForEach, lengths_in};
ghost use Rattle.memory_bound.specs.Lengths.{AreOn, IsFirstAmong, IsReachedIn, TellsLength, TellsNode, lacks_constant};

use super::task::Task;
use memory_rules::Makes;

/// Whether arrays are made of no constant length.
fn lacks_constant(makes: Option<Makes>) -> bool
    ensures { result ≡ lacks_constant makes }
{
    matches!(makes, Some(Makes::Array { constant: None, .. }))
}

/// Whether the instruction at a place of the method `m` makes arrays whose length is neither a constant nor given.
fn lacks_length(task: &Task<'_>, m: u32, place: u32) -> bool
    requires { m < length task.now.flow.methods }
    ensures { ForEach task.now (λ P. IsReachedIn P m place → TellsLength P (lengths_in task.now) m place result) }
{
    lacks_constant(task.made_at(m, place)) && task.length_at(m, place).is_none()
}

/// Whether a node of the method's graph is such an instruction.
fn is_unlimited(task: &Task<'_>, m: u32, node: u32) -> bool
    requires { m < length task.now.flow.methods }
    ensures { ForEach task.now (λ P. ((p : ℕ) → 2 * p ≡ node → IsReachedIn P m p) → TellsNode P (lengths_in task.now) m node result) }
{
    node % 2 == 0 && lacks_length(task, m, node / 2)
}

/// The place of the first of these nodes of the method's graph that is such an instruction.
pub fn first_unlimited(task: &Task<'_>, m: u32, nodes: &[u32]) -> Option<u32>
    requires method { m < length task.now.flow.methods }
    requires rising { IsStrictlyIncreasing nodes.now }
    ensures { ForEach task.now (λ P. AreOn P m nodes.now → IsFirstAmong P (lengths_in task.now) m nodes.now result) }
{
    for node in nodes {
        if is_unlimited(task, m, *node) {
            return Some(*node / 2);
        }
    }
    None
}
