//! The check of a section with prices behind those that were checked before it.
ghost use Rattle.std.specs.Prelude.{◌≡◌, ◌<◌, IfOk, IfErr, OnOk, length};
ghost use Rattle.bytecode_model.specs.Program.{Program};
ghost use Rattle.method_flow.specs.Flow.{IsFlowOf};
ghost use Rattle.cert_checker.specs.Section.{IsUsual};
ghost use Rattle.priced_sections.specs.Views.{facts_of, graph_of, costs_of, back_of, section_of, IsView};
ghost use Rattle.priced_sections.specs.Answers.{IsPaidAnswer};
ghost use Rattle.fact_checker.specs.Known.{pricing};
ghost use Rattle.fact_checker.specs.Section.{PricedAnswersFor, PricedFailsFor, PricedMeetsFor, PricedPreparedFails, PricedPreparedMeets};

use super::known::{KnownPrices, SectionPrices};
use base::NoMemory;
use bound_rules::CheckFault;
use cert_checker::{Prepared, Task, Values, fees, joined, loop_bounds, prepare, wrong_beside};
use priced_sections::{PricedView, check_priced};
use section_check::section::SectionFault;
use section_index::wrong_loops;
use std::alloc::Global;

/// The answer to the potentials of a section, where all by which it is checked is at hand.
fn check_view(
    alloc: Global,
    q: &PricedView<'_>,
) -> Result<Result<Option<u64>, SectionFault>, NoMemory>
    requires { IsView q.now }
    ensures { IfOk result
        (IsPaidAnswer (graph_of q.now) (costs_of q.now) (back_of q.now) (section_of q.now) q.now.bounds.now q.now.loads.now (facts_of q.now)) }
{
    let (faulty, aside) = wrong_loops(alloc, q.graph, q.section.loops(), q.loads)?;
    Ok(check_priced(alloc, q, faulty, aside)?)
}

/// The answer to the potentials of a section, where its loops are charged as its method says, and its facts have these
/// prices.
fn check_potentials(
    alloc: Global,
    task: &Task<'_>,
    known: &KnownPrices<'_>,
    s: &SectionPrices<'_>,
    p: &Prepared,
) -> Result<Result<Option<u64>, SectionFault>, NoMemory>
    requires coded { s.now.plain.method < length task.now.flow.methods }
    requires table { known.now.methods ≡ length task.now.flow.methods }
    requires usual { IsUsual s.now.plain.section }
    requires costs { length p.now.costs.items ≡ p.now.graph.nodes }
    ensures { IfOk result (λ answer. (P : Program) → IsFlowOf P task.now.flow → PricedAnswersFor P task.now (pricing known.now) s.now p.now answer) }
{
    let own = known.own(alloc, s)?;
    let bounds = loop_bounds(alloc, task, s.plain)?;
    let loads = fees(alloc, task, s.plain)?;
    check_view(
        alloc,
        &PricedView {
            graph: &p.graph,
            costs: &p.costs,
            section: &s.plain.section,
            bounds: &bounds,
            loads: &loads,
            facts: own.as_slice(),
            others: known.others(s.plain.method),
        },
    )
}

/// Checks a section for which all is prepared.
fn check_prepared(
    alloc: Global,
    task: &Task<'_>,
    known: &KnownPrices<'_>,
    s: &SectionPrices<'_>,
    p: &Prepared,
) -> Result<Option<u64>, CheckFault>
    requires coded { s.now.plain.method < length task.now.flow.methods }
    requires table { known.now.methods ≡ length task.now.flow.methods }
    requires usual { IsUsual s.now.plain.section }
    requires costs { length p.now.costs.items ≡ p.now.graph.nodes }
    ensures met { IfOk result (PricedPreparedMeets task.now (pricing known.now) s.now p.now) }
    ensures fails { IfErr result (PricedPreparedFails task.now (pricing known.now) s.now p.now) }
{
    let Ok(answer) = check_potentials(alloc, task, known, s, p) else {
        return Err(CheckFault::NoMemory);
    };
    if let Some(x) = p.absent {
        return Err(CheckFault::Missing(x));
    }
    joined(
        s.plain.method,
        wrong_beside(task, s.plain, &p.nodes),
        answer,
    )
}

/// Checks a section behind those whose values these are: its value, or the first condition that fails.
pub fn check_section(
    alloc: Global,
    task: &Task<'_>,
    known: &KnownPrices<'_>,
    values: &Values,
    s: &SectionPrices<'_>,
) -> Result<Option<u64>, CheckFault>
    requires values { values.now.methods ≡ length task.now.flow.methods }
    requires table { known.now.methods ≡ length task.now.flow.methods }
    requires usual { IsUsual s.now.plain.section }
    ensures coded { OnOk result (s.now.plain.method < length task.now.flow.methods) }
    ensures met { IfOk result (PricedMeetsFor task.now (pricing known.now) values.now.valued s.now) }
    ensures fails { IfErr result (PricedFailsFor task.now (pricing known.now) values.now.valued s.now) }
{
    let method = s.plain.method;
    if method >= task.flow().method_count() {
        return Err(CheckFault::Missing(method));
    }
    let Ok(p) = prepare(alloc, task, values, s.plain) else {
        return Err(CheckFault::NoMemory);
    };
    check_prepared(alloc, task, known, s, &p)
}
