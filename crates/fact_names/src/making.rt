//! The facts that were found of lines.
ghost use Rattle.std.specs.Prelude.{◌≡◌, ◌↔◌, ◌++◌, ◌∷◌, [], length, IfErr, IfOk, IsTrue, MatchOption, OnOk};
ghost use Rattle.fact_names.specs.Refused.{AreOwn, IsFirstOther, IsOwn};
ghost use Rattle.fact_names.specs.Found.{AreAllFound, IsMissing, count_of};

use crate::fault::NameFault;
use crate::naming::Found;
use base::NoMemory;
use flow_facts::{CountFact, FactLine, Facts, NumberedFact, SaidScope};
use std::alloc::Global;

/// Whether a line says how often a node is visited in the method's own activations.
fn is_own(line: &FactLine) -> bool
    ensures { IsTrue result ↔ IsOwn line.now }
{
    match line {
        FactLine::Total(total) => !matches!(total.scope, SaidScope::InMethod(_)),
        FactLine::Only(_) => false,
    }
}

/// The number of the first line that says something else.
pub(crate) fn first_other(lines: &[NumberedFact]) -> Option<u32>
    ensures { MatchOption result (AreOwn lines.now) (IsFirstOther lines.now) }
{
    for line in lines {
        if !is_own(&line.fact) {
            return Some(line.line);
        }
    }
    None
}

/// Puts the fact that was found behind the others.
fn add_fact(alloc: Global, counts: &mut Vec<CountFact>, found: Found) -> Result<(), NoMemory>
    ensures { OnOk result (counts.new.items ≡ counts.old.items ++ count_of found ∷ []) }
{
    let nodes = vec![in alloc; found.node]?;
    counts.push(CountFact::new(found.method, nodes, found.most, found.scope))?;
    Ok(())
}

/// The facts that were found of lines, or the first line of which none was found.
pub(crate) fn facts_of(
    alloc: Global,
    lines: &[NumberedFact],
    found: &[Option<Found>],
) -> Result<Facts, NameFault>
    requires { length found.now ≡ length lines.now }
    ensures facts { IfOk result (AreAllFound found.now) }
    ensures missing { IfErr result (IsMissing lines.now found.now) }
{
    let mut counts = Vec::new(alloc);
    for i in 0..lines.len() {
        let Some(found) = found[i] else {
            return Err(NameFault::Line(lines[i].line));
        };
        add_fact(alloc, &mut counts, found)?;
    }
    Ok(Facts::new(counts, Vec::new(alloc)))
}
