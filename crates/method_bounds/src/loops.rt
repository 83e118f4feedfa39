//! What of the loops of methods stands against a bound.
ghost use Rattle.std.specs.Prelude.{◌≡◌, ◌<◌, length, IfOk};
ghost use Rattle.bytecode_model.specs.Program.{Program};
ghost use Rattle.method_flow.specs.Flow.{IsFlowOf};
ghost use Rattle.node_costs.specs.Costs.{bounds_of};
ghost use Rattle.method_bounds.specs.Loops.{AreLoops, AreLoopsOf};

use base::NoMemory;
use bound_causes::unbounded_in;
use bound_rules::BoundRefusal;
use bound_texts::loops::Bounds;
use method_flow::FlowProgram;
use std::alloc::Global;

/// What of the loops of a method stands against a bound.
#[derive(Clone, Copy)]
pub enum Loops {
    /// Nothing: each cycle of its graph is a loop with one entry, for which a bound is given.
    Bounded,
    /// No bound is given for the loop whose header is the instruction at this place, the first such.
    Lacking(u32),
    /// A loop has several entries.
    Irreducible,
}

/// What of the loops of the method `m` stands against a bound.
fn loops_in(alloc: Global, f: &FlowProgram, b: &Bounds, m: u32) -> Result<Loops, NoMemory>
    requires { m < length f.now.methods }
    ensures { IfOk result (λ found. (P : Program) → IsFlowOf P f.now → AreLoops P (bounds_of f.now b.now) m found) }
{
    match unbounded_in(alloc, f, b, m) {
        Ok(None) => Ok(Loops::Bounded),
        Ok(Some(place)) => Ok(Loops::Lacking(place)),
        Err(BoundRefusal::Irreducible(_, _)) => Ok(Loops::Irreducible),
        Err(_) => Err(NoMemory),
    }
}

/// The same of each method, by its number. A method's graph is dropped before the next one is made.
pub fn all_loops(alloc: Global, f: &FlowProgram, b: &Bounds) -> Result<Vec<Loops>, NoMemory>
    ensures long { IfOk result (λ loops. length loops.items ≡ length f.now.methods) }
    ensures each { IfOk result (λ loops. AreLoopsOf f.now b.now loops.items) }
{
    let mut loops = Vec::new(alloc);
    for m in 0..f.method_count() {
        let found = loops_in(alloc, f, b, m)?;
        loops.push(found)?;
    }
    Ok(loops)
}
