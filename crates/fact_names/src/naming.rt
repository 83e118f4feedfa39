//! What is found of lines: for each method of a table those that have its name, which need not stand together.
ghost use Rattle.std.specs.Prelude.{◌≡◌, ◌<◌, length, IfOk, OnOk, Some, slice_get};
ghost use Rattle.method_flow.specs.Flow.{Coded};
ghost use Rattle.fact_names.specs.Found.{AreFoundIn, AreLinesOf, AreLookedAt, ArePlacesOf, IsFoundOf, IsLookedAt};
ghost use Rattle.fact_names.specs.Index.{IsIndexOf};

use crate::index::LinesByName;
use crate::places::{Places, node_in, places_of};
use base::NoMemory;
use flow_facts::{FactLine, NumberedFact, Scope, TotalLine};
use method_flow::{FlowMethod, FlowProgram};
use std::alloc::Global;

/// What a line says: a node of the method of this number is visited at most so often in the scope.
#[derive(Clone, Copy)]
pub(crate) struct Found {
    pub method: u32,
    pub node: u32,
    pub most: u32,
    pub scope: Scope,
}

/// What a line says of the method of this number, if it says something.
fn found_in(
    alloc: Global,
    k: &FlowMethod,
    places: &mut Places,
    method: u32,
    total: &TotalLine,
) -> Result<Option<Found>, NoMemory>
    requires { ArePlacesOf k.now places.old.starts.items places.old.loops }
    ensures kept { ArePlacesOf k.now places.new.starts.items places.new.loops }
    ensures found { IfOk result (IsFoundOf k.now method total.now) }
{
    bound_rules::laws::graphs_are_one();
    match node_in(alloc, k, places, total)? {
        Some((node, scope)) => Ok(Some(Found {
            method,
            node,
            most: total.most,
            scope,
        })),
        None => Ok(None),
    }
}

/// What is found of a line once it is looked for in a method that has its name, too.
fn look(
    alloc: Global,
    k: &FlowMethod,
    places: &mut Places,
    method: u32,
    line: &FactLine,
    found: Option<Found>,
) -> Result<Option<Found>, NoMemory>
    requires { ArePlacesOf k.now places.old.starts.items places.old.loops }
    ensures kept { ArePlacesOf k.now places.new.starts.items places.new.loops }
    ensures found { IfOk result (IsLookedAt k.now method line.now found) }
{
    match (line, found) {
        (FactLine::Total(total), None) => found_in(alloc, k, places, method, total),
        _ => Ok(found),
    }
}

/// Looks for the lines that have the name of a method.
fn look_at(
    alloc: Global,
    k: &FlowMethod,
    method: u32,
    lines: &[NumberedFact],
    own: &[u32],
    found: &mut [Option<Found>],
) -> Result<(), NoMemory>
    requires own { AreLinesOf lines.now k.now.name own.now }
    requires long { length found.old ≡ length lines.now }
    ensures long { length found.new ≡ length lines.now }
    ensures looked_at { OnOk result (AreLookedAt k.now method lines.now found.old found.new) }
{
    let mut places = places_of(alloc, k)?;
    for i in own {
        let i = *i as usize;
        found[i] = look(alloc, k, &mut places, method, &lines[i].fact, found[i])?;
    }
    Ok(())
}

/// The same of the method of this number.
fn look_in(
    alloc: Global,
    f: &FlowProgram,
    method: u32,
    lines: &[NumberedFact],
    index: &LinesByName,
    found: &mut [Option<Found>],
) -> Result<(), NoMemory>
    requires method { method < length f.now.methods }
    requires index { IsIndexOf lines.now index.now }
    requires long { length found.old ≡ length lines.now }
    ensures long { length found.new ≡ length lines.now }
    ensures looked_at { OnOk result ((k : Coded) → slice_get f.now.methods method ≡ Some k → AreLookedAt k method lines.now found.old found.new) }
{
    let k = f.method(method);
    let own = index.lines_of(k.name());
    if own.is_empty() {
        return Ok(());
    }
    look_at(alloc, k, method, lines, own, found)
}

/// For each line what it says of the program.
pub(crate) fn found_of(
    alloc: Global,
    f: &FlowProgram,
    lines: &[NumberedFact],
) -> Result<Vec<Option<Found>>, NoMemory>
    ensures found { IfOk result (λ found. AreFoundIn f.now lines.now (length f.now.methods) found.items) }
    ensures long { IfOk result (λ found. length found.items ≡ length lines.now) }
{
    let index = LinesByName::new(alloc, lines)?;
    let mut found = vec![in alloc; None; lines.len()]?;
    for method in 0..f.method_count() {
        look_in(alloc, f, method, lines, &index, &mut found)?;
    }
    Ok(found)
}
