//! What a run of a program needs of memory, by the bounds of its loops and the lengths of its arrays.
ghost use Rattle.std.specs.Prelude.{◌≡◌, ◌≤◌, length, IfOk, IfErr};
ghost use Rattle.base.specs.Sizes.{longest_file};
ghost use Rattle.bound_texts.specs.Loops.Grammar.{IsReadLengths};
ghost use Rattle.method_flow.specs.Flow.{IsFlowOf};
ghost use Rattle.node_costs.specs.Costs as table;
ghost use Rattle.program_tables.specs.Resolved.{resolved};
ghost use Rattle.analysis_commands.specs.Analysis.{bounds_of, named_or_number};
ghost use Rattle.analysis_commands.specs.Answers.{table_name};
ghost use Rattle.memory_bound.specs.Causes.{IsNeedOf};
ghost use Rattle.analysis_commands.specs.Memory.{IsGivenBy, IsBadSizes, IsBadText, cause_of, subject_of, IsNoNeedBy, IsNotMetBy, IsNeed};
ghost use Rattle.analysis_commands.specs.Memory.{IsMemoryRefusal};

use crate::analysis::table_of;
use crate::names::table_name;
use crate::subjects::{name_and_nodes, names_text};
use base::NoMemory;
use bound_texts::loops::{Bounds, BoundsFault, read_bounds, read_lengths};
use bytecode_verifier::Verified;
use memory_bound::need;
use memory_rules::{Need, NeedCause, NeedFault};
use method_flow::FlowProgram;
use program_sites::made::sites_of;
use resolved_program::Program;
use std::alloc::Global;

/// The bounds of loops, and the greatest lengths of arrays.
#[derive(Drop)]
pub struct Given {
    pub bounds: Bounds,
    pub lengths: Bounds,
}

/// Why no need of memory is given.
#[derive(Drop)]
pub enum MemoryRefusal {
    /// The line of this number, counted from 1, is the first of the bounds that is none of their grammar.
    BadBounds(u32),
    /// The line of this number is the first that bounds a loop which a line before it bounds.
    TwiceBound(u32),
    /// The line of this number is the first of the lengths that is none of their grammar.
    BadSizes(u32),
    /// The line of this number is the first that gives a length which a line before it gives.
    TwiceSize(u32),
    /// The cause, and what its line names: each method of the cycle, behind a space, or else the method, and where it is irreducible
    /// its nodes, each behind a space.
    NoNeed(NeedCause, Vec<u8>),
    /// There was no memory.
    NoMemory,
}

/// The lengths of a text, behind the bounds of another.
fn lengths_behind(alloc: Global, bounds: Bounds, sizes: &[u8]) -> Result<Given, MemoryRefusal>
    requires { length sizes.now ≤ longest_file }
    ensures given { IfOk result (λ g. (g.bounds ≡ bounds) × IsReadLengths sizes.now g.lengths) }
    ensures bad { IfErr result (IsBadSizes sizes.now) }
{
    match read_lengths(alloc, sizes) {
        Ok(lengths) => Ok(Given { bounds, lengths }),
        Err(fault) => {
            drop(bounds);
            Err(match fault {
                BoundsFault::Line(line) => MemoryRefusal::BadSizes(line),
                BoundsFault::Twice(line) => MemoryRefusal::TwiceSize(line),
                BoundsFault::NoMemory => MemoryRefusal::NoMemory,
            })
        }
    }
}

/// What the two texts give.
///
/// # Errors
///
/// What refuses the bounds, or else the lengths.
pub fn given_by(alloc: Global, bounds: &[u8], sizes: &[u8]) -> Result<Given, MemoryRefusal>
    requires bounds { length bounds.now ≤ longest_file }
    requires sizes { length sizes.now ≤ longest_file }
    ensures given { IfOk result (IsGivenBy bounds.now sizes.now) }
    ensures bad { IfErr result (IsBadText bounds.now sizes.now) }
{
    match read_bounds(alloc, bounds) {
        Ok(bounds) => lengths_behind(alloc, bounds, sizes),
        Err(fault) => Err(match fault {
            BoundsFault::Line(line) => MemoryRefusal::BadBounds(line),
            BoundsFault::Twice(line) => MemoryRefusal::TwiceBound(line),
            BoundsFault::NoMemory => MemoryRefusal::NoMemory,
        }),
    }
}

/// The cause of a fault in numbers, but of want of memory.
fn cause_of(fault: &NeedFault) -> Option<NeedCause>
    ensures { result ≡ cause_of fault.now }
{
    match fault {
        NeedFault::Recursion(_) => Some(NeedCause::Recursion),
        NeedFault::Irreducible(m, _) => Some(NeedCause::Irreducible(*m)),
        NeedFault::MissingBound(m, place) => Some(NeedCause::MissingBound(*m, *place)),
        NeedFault::MissingSize(m, place) => Some(NeedCause::MissingSize(*m, *place)),
        NeedFault::TooLarge(m) => Some(NeedCause::TooLarge(*m)),
        NeedFault::NoMemory => None,
    }
}

/// What the line of a fault names.
fn subject_of(alloc: Global, flow: &FlowProgram, fault: &NeedFault) -> Result<Vec<u8>, NoMemory>
    ensures { IfOk result (λ text. text.items ≡ subject_of (table_name flow.now) fault.now) }
{
    match fault {
        NeedFault::NoMemory => Ok(Vec::new(alloc)),
        NeedFault::Recursion(cycle) => names_text(alloc, flow, cycle.as_slice()),
        NeedFault::Irreducible(m, nodes) => name_and_nodes(alloc, flow, *m, nodes.as_slice()),
        NeedFault::MissingBound(m, _) | NeedFault::MissingSize(m, _) | NeedFault::TooLarge(m) => {
            table_name(alloc, flow, *m)
        }
    }
}

/// The refusal by a fault.
fn no_need(alloc: Global, flow: &FlowProgram, fault: &NeedFault) -> MemoryRefusal
    ensures { IsNoNeedBy (table_name flow.now) fault.now result }
{
    let Some(cause) = cause_of(fault) else {
        return MemoryRefusal::NoMemory;
    };
    match subject_of(alloc, flow, fault) {
        Ok(subject) => MemoryRefusal::NoNeed(cause, subject),
        Err(_) => MemoryRefusal::NoMemory,
    }
}

/// What a run of a program needs, by its table.
fn need_by(
    alloc: Global,
    flow: &FlowProgram,
    program: &Program,
    given: &Given,
) -> Result<Need, MemoryRefusal>
    requires { IsFlowOf (resolved program.now) flow.now }
    ensures need { IfOk result (IsNeedOf (resolved program.now) (table.bounds_of flow.now given.now.bounds) (table.bounds_of flow.now given.now.lengths)) }
    ensures fault { IfErr result (IsNotMetBy (resolved program.now) (table.bounds_of flow.now given.now.bounds) (table.bounds_of flow.now given.now.lengths)
        (table_name flow.now)) }
{
    let Ok(sites) = sites_of(alloc, program, flow) else {
        return Err(MemoryRefusal::NoMemory);
    };
    match need(alloc, flow, &sites, &given.bounds, &given.lengths) {
        Ok(need) => Ok(need),
        Err(fault) => Err(no_need(alloc, flow, &fault)),
    }
}

/// What a run of a program needs with these bounds and lengths.
fn need_given(alloc: Global, program: &Verified, given: &Given) -> Result<Need, MemoryRefusal>
    ensures need { IfOk result (IsNeedOf (resolved program.now) (bounds_of program.now given.now.bounds) (bounds_of program.now given.now.lengths)) }
    ensures fault { IfErr result (IsNotMetBy (resolved program.now) (bounds_of program.now given.now.bounds) (bounds_of program.now given.now.lengths)
        (named_or_number program.now)) }
{
    match table_of(alloc, program) {
        Ok(flow) => need_by(alloc, &flow, program.program(), given),
        Err(_) => Err(MemoryRefusal::NoMemory),
    }
}

/// What a run of a program needs of memory at most, in words, by the text of the bounds of its loops and that of the lengths of its
/// arrays. Bounds are asked for loops that make objects alone, and lengths for arrays of no constant length.
///
/// # Errors
///
/// What refuses the texts first, the bounds before the lengths. Then why there is no need: recursion, a loop with several entries, a
/// loop that makes objects without a bound, an array without a length, words past 64 bits.
pub fn memory_need(
    alloc: Global,
    program: &Verified,
    bounds: &[u8],
    sizes: &[u8],
) -> Result<Need, MemoryRefusal>
    requires bounds { length bounds.now ≤ longest_file }
    requires sizes { length sizes.now ≤ longest_file }
    ensures need { IfOk result (IsNeed program.now bounds.now sizes.now) }
    ensures refused { IfErr result (IsMemoryRefusal program.now bounds.now sizes.now) }
{
    match given_by(alloc, bounds, sizes) {
        Ok(given) => need_given(alloc, program, &given),
        Err(refusal) => Err(refusal),
    }
}
