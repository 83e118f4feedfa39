//! What the lines of bounds that aren't given name.
ghost use Rattle.std.specs.Prelude.{◌≡◌, ◌++◌, IfOk, OnOk, codes, map};
ghost use Rattle.certificates.specs.CertLines.{node_text};
ghost use Rattle.answer_lines.specs.AnalysisLines.{names_text, nodes_text};
ghost use Rattle.analysis_commands.specs.Answers.{table_name};
ghost use Rattle.analysis_commands.specs.Bounding.{cause_of, subject_of};

use crate::names::table_name;
use answer_lines::BoundCause;
use ascii_text::put_u64;
use base::NoMemory;
use bound_rules::BoundRefusal;
use method_flow::FlowProgram;
use std::alloc::Global;

/// The cause of a refusal in numbers, but of want of memory.
pub fn cause_of(refusal: &BoundRefusal) -> Option<BoundCause>
    ensures { result ≡ cause_of refusal.now }
{
    match refusal {
        BoundRefusal::NoMethod => Some(BoundCause::NoMethod),
        BoundRefusal::Recursion(_) => Some(BoundCause::Recursion),
        BoundRefusal::Irreducible(m, _) => Some(BoundCause::Irreducible(*m)),
        BoundRefusal::MissingBound(m, place) => Some(BoundCause::MissingBound(*m, *place)),
        BoundRefusal::TooLarge(m) => Some(BoundCause::TooLarge(*m)),
        BoundRefusal::NoMemory => None,
    }
}

/// Appends the name of a method behind a space.
fn put_name(alloc: Global, out: &mut Vec<u8>, flow: &FlowProgram, m: u32) -> Result<(), NoMemory>
    ensures { OnOk result (out.new.items ≡ out.old.items ++ (codes " " ++ table_name flow.now m)) }
{
    let name = table_name(alloc, flow, m)?;
    out.push(b' ')?;
    out.extend_from_slice(&name)?;
    Ok(())
}

/// The names of methods, each behind a space.
pub(crate) fn names_text(
    alloc: Global,
    flow: &FlowProgram,
    methods: &[u32],
) -> Result<Vec<u8>, NoMemory>
    ensures { IfOk result (λ text. text.items ≡ names_text (map (table_name flow.now) methods.now)) }
{
    let mut out = Vec::new(alloc);
    for m in methods {
        put_name(alloc, &mut out, flow, *m)?;
    }
    Ok(out)
}

/// Appends a node behind a space: its place, and `r` where it is a raise step.
fn put_node(out: &mut Vec<u8>, node: u32) -> Result<(), NoMemory>
    ensures { OnOk result (out.new.items ≡ out.old.items ++ (codes " " ++ node_text node)) }
{
    out.push(b' ')?;
    put_u64(out, (node / 2) as u64)?;
    if node % 2 == 1 {
        out.push(b'r')?;
    }
    Ok(())
}

/// Appends nodes, each behind a space.
fn put_nodes(out: &mut Vec<u8>, nodes: &[u32]) -> Result<(), NoMemory>
    ensures { OnOk result (out.new.items ≡ out.old.items ++ nodes_text nodes.now) }
{
    for node in nodes {
        put_node(out, *node)?;
    }
    Ok(())
}

/// The name of a method, and nodes behind it.
pub(crate) fn name_and_nodes(
    alloc: Global,
    flow: &FlowProgram,
    m: u32,
    nodes: &[u32],
) -> Result<Vec<u8>, NoMemory>
    ensures { IfOk result (λ text. text.items ≡ table_name flow.now m ++ nodes_text nodes.now) }
{
    let mut text = table_name(alloc, flow, m)?;
    put_nodes(&mut text, nodes)?;
    Ok(text)
}

/// What the line of a refusal names.
pub fn subject_of(
    alloc: Global,
    flow: &FlowProgram,
    refusal: &BoundRefusal,
) -> Result<Vec<u8>, NoMemory>
    ensures { IfOk result (λ text. text.items ≡ subject_of (table_name flow.now) refusal.now) }
{
    match refusal {
        BoundRefusal::NoMethod | BoundRefusal::NoMemory => Ok(Vec::new(alloc)),
        BoundRefusal::Recursion(cycle) => names_text(alloc, flow, cycle),
        BoundRefusal::Irreducible(m, nodes) => name_and_nodes(alloc, flow, *m, nodes),
        BoundRefusal::MissingBound(m, _) | BoundRefusal::TooLarge(m) => table_name(alloc, flow, *m),
    }
}
