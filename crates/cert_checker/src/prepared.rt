//! What a section is checked with.
ghost use Rattle.std.specs.Prelude.{◌≡◌, ◌*◌, ◌<◌, All, IfOk, length};
ghost use Rattle.std.specs.List.Sorted.{IsStrictlyIncreasing};
ghost use Rattle.bytecode_model.specs.Program.{Program};
ghost use Rattle.method_flow.specs.Flow.{IsFlowOf, places_of};
ghost use Rattle.cert_checker.specs.Prepared.{AreCostsOf, FitsLimit, IsPrepared, IsPreparedWith, OnMethod};
ghost use Rattle.cert_checker.specs.Telling.{AreSummaries, told_by};

use super::absent::least_absent;
use super::nodes::come_to;
use super::summaries::{Summary, goes_on, summaries};
use super::task::Task;
use super::telling::{Teller, regions};
use super::values::Values;
use base::NoMemory;
use certificates::CertSection;
use flow_graph::graph_where;
use loop_nest::Graph;
use method_flow::{Call, FlowMethod};
use node_costs::own_costs;
use opcodes::laws::starts_follow_one_another;
use std::alloc::Global;

/// The graph of a section, the costs of its nodes in cycles, for each number whether it is a node, and the least method that is
/// absent and that an invoke among the nodes may run.
#[derive(Drop)]
pub struct Prepared {
    pub graph: Graph,
    pub costs: Vec<u64>,
    pub nodes: Vec<bool>,
    pub absent: Option<u32>,
}

/// Adds to the costs of calls what their targets add.
fn add(costs: &mut [u64], calls: &[Call], summaries: &[Summary])
    requires long { length summaries.now ≡ length calls.now }
    requires rising { IsStrictlyIncreasing (places_of calls.now) }
    requires inside { All (λ c. 2 * c.place < length costs.old) calls.now }
    requires small { FitsLimit calls.now summaries.now costs.old }
    ensures { AreCostsOf costs.old calls.now summaries.now costs.new }
{
    for i in 0..calls.len() {
        costs[2 * calls[i].place as usize] += summaries[i].added;
    }
}

/// What a section is checked with, where its calls are told this.
fn with_summaries(
    alloc: Global,
    m: &FlowMethod,
    mut costs: Vec<u64>,
    summaries: &[Summary],
) -> Result<Prepared, NoMemory>
    requires long { length summaries.now ≡ length m.now.calls }
    requires inside { length costs.items ≡ 2 * length m.now.code }
    requires small { FitsLimit m.now.calls summaries.now costs.items }
    ensures prepared { IfOk result (IsPreparedWith m.now costs.items summaries.now) }
    ensures costs { IfOk result (λ p. length p.costs.items ≡ p.graph.nodes) }
{
    starts_follow_one_another();
    let goes = goes_on(alloc, summaries)?;
    let graph = graph_where(alloc, m, &goes)?;
    add(&mut costs, m.calls(), summaries);
    let nodes = come_to(alloc, &graph)?;
    let absent = least_absent(m.calls(), summaries, &nodes);
    Ok(Prepared {
        graph,
        costs,
        nodes,
        absent,
    })
}

/// What each of the calls of a section's method is told of its targets.
fn told_summaries(
    alloc: Global,
    task: &Task<'_>,
    values: &Values,
    s: &CertSection,
    own: &[u64],
) -> Result<Vec<Summary>, NoMemory>
    requires values { values.now.methods ≡ length task.now.flow.methods }
    requires coded { s.now.method < length task.now.flow.methods }
    requires own { OnMethod task.now s.now (λ k. length own.now ≡ 2 * length k.code) }
    ensures { IfOk result (λ summaries. OnMethod task.now s.now (λ k.
        AreSummaries (told_by task.now values.now.valued s.now own.now) task.now.flow k.calls summaries.items)) }
{
    starts_follow_one_another();
    // Its clause is for the proof alone.
    let _ = task.flow().method_count();
    let regions = regions(alloc, s, own.len())?;
    let teller = Teller {
        task,
        values,
        section: s,
        own,
        regions: &regions,
    };
    summaries(alloc, &teller, task.method(s.method).calls())
}

/// What a section is checked with, behind those whose values these are.
pub fn prepare(
    alloc: Global,
    task: &Task<'_>,
    values: &Values,
    s: &CertSection,
) -> Result<Prepared, NoMemory>
    requires values { values.now.methods ≡ length task.now.flow.methods }
    requires coded { s.now.method < length task.now.flow.methods }
    ensures prepared { IfOk result (λ p. (P : Program) → IsFlowOf P task.now.flow → IsPrepared P task.now.timing values.now.valued s.now p) }
    ensures costs { IfOk result (λ p. length p.costs.items ≡ p.graph.nodes) }
{
    opcodes::laws::starts_follow_one_another();
    method_flow::laws::rows_are_of_their_kinds();
    // Its clause is for the proof alone.
    let _ = task.flow().method_count();
    let m = task.method(s.method);
    // Its clause is for the proof alone.
    let _ = m.calls();
    let own = own_costs(alloc, m, task.timing())?;
    let summaries = told_summaries(alloc, task, values, s, &own)?;
    with_summaries(alloc, m, own, &summaries)
}
