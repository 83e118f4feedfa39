//! The check of a section behind those that were checked before it.
ghost use Rattle.std.specs.Prelude.{◌≡◌, ◌<◌, ℕ, List, IfOk, IfErr, OnOk, length};
ghost use Rattle.bytecode_model.specs.Program.{Program};
ghost use Rattle.method_flow.specs.Flow.{IsFlowOf};
ghost use Rattle.section_check.specs.Least.{IsLeast};
ghost use Rattle.certificates.specs.Certificate.{IsSectionInText};
ghost use Rattle.node_costs.specs.Costs.{bounds_of};
ghost use Rattle.cert_checker.specs.Section.{AnswersFor, FailsFor, IsUsual, MeetsFor, PreparedFails, PreparedMeets, IsWrongBeside};

use super::answer::joined;
use super::nodes::{lesser, unflagged};
use super::prepared::{Prepared, prepare};
use super::prices::{fees, loop_bounds, unbounded};
use super::task::Task;
use super::values::Values;
use base::NoMemory;
use bound_rules::CheckFault;
use certificates::CertSection;
use section_check::section::SectionFault;
use section_index::check_with_index;
use std::alloc::Global;

/// The answer to the potentials of a section, where its loops are charged as its method says.
fn check_potentials(
    alloc: Global,
    task: &Task<'_>,
    s: &CertSection,
    p: &Prepared,
) -> Result<Result<Option<u64>, SectionFault>, NoMemory>
    requires coded { s.now.method < length task.now.flow.methods }
    requires usual { IsUsual s.now.section }
    requires costs { length p.now.costs.items ≡ p.now.graph.nodes }
    ensures { IfOk result (λ answer. (P : Program) → IsFlowOf P task.now.flow → AnswersFor P task.now s.now p.now answer) }
{
    let bounds = loop_bounds(alloc, task, s)?;
    let fees = fees(alloc, task, s)?;
    check_with_index(alloc, &p.graph, &p.costs, &bounds, &fees, &s.section)
}

/// The least node of a section that is none, or that heads a loop without a bound.
pub fn wrong_beside(task: &Task<'_>, s: &CertSection, nodes: &[bool]) -> Option<u32>
    requires coded { s.now.method < length task.now.flow.methods }
    requires usual { IsUsual s.now.section }
    ensures { IsLeast (IsWrongBeside (bounds_of task.now.flow task.now.bounds) s.now nodes.now) result }
{
    lesser(unflagged(&s.section, nodes), unbounded(task, s))
}

/// Checks a section for which all is prepared.
fn check_prepared(
    alloc: Global,
    task: &Task<'_>,
    s: &CertSection,
    p: &Prepared,
) -> Result<Option<u64>, CheckFault>
    requires coded { s.now.method < length task.now.flow.methods }
    requires usual { IsUsual s.now.section }
    requires costs { length p.now.costs.items ≡ p.now.graph.nodes }
    ensures met { IfOk result (PreparedMeets task.now s.now p.now) }
    ensures fails { IfErr result (PreparedFails task.now s.now p.now) }
{
    let Ok(answer) = check_potentials(alloc, task, s, p) else {
        return Err(CheckFault::NoMemory);
    };
    if let Some(x) = p.absent {
        return Err(CheckFault::Missing(x));
    }
    joined(s.method, wrong_beside(task, s, &p.nodes), answer)
}

/// Checks a section behind those whose values these are: its value, or the first condition that fails.
pub fn check_section_of(
    alloc: Global,
    task: &Task<'_>,
    values: &Values,
    s: &CertSection,
) -> Result<Option<u64>, CheckFault>
    requires values { values.now.methods ≡ length task.now.flow.methods }
    requires usual { IsUsual s.now.section }
    ensures coded { OnOk result (s.now.method < length task.now.flow.methods) }
    ensures met { IfOk result (MeetsFor task.now values.now.valued s.now) }
    ensures fails { IfErr result (FailsFor task.now values.now.valued s.now) }
{
    if s.method >= task.flow().method_count() {
        return Err(CheckFault::Missing(s.method));
    }
    let Ok(p) = prepare(alloc, task, values, s) else {
        return Err(CheckFault::NoMemory);
    };
    check_prepared(alloc, task, s, &p)
}
