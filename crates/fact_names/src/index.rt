//! Lines by the names of their methods.
ghost use Rattle.std.specs.Prelude.{◌≡◌, ◌<◌, ◌^◌, List, length, map, IfOk};
ghost use Rattle.flow_facts.specs.declared.line.NumberedFact.{NumberedFact};
ghost use Rattle.fact_names.specs.Found.{AreLinesOf, name_said};
ghost use Rattle.fact_names.specs.Index.{AreNumbered, IsIndexOf};

use base::NoMemory;
use flow_facts::{FactLine, NumberedFact};
use indexmap::IndexSet;
use loop_nest::digraph::Sources;
use std::alloc::Global;
use std::marker::Model;

/// The names of lines, and for each of them the numbers of the lines that have it.
#[derive(Drop)]
pub(crate) struct LinesByName {
    names: IndexSet<Vec<u8>>,
    lines: Sources,
}

impl Model for LinesByName {
    ghost use Rattle.std.specs.Prelude.{◌≡◌, ◌<◌, ◌^◌, length, map};
    ghost use Rattle.fact_names.specs.Index.{Index};

    ghost Value = { Index };

    ghost view = { λ x. record { names = map (λ k. k.items) x.names.keys; lists = x.lines } };

    ghost invariant = { λ x. (length x.lines ≡ length (map (λ k. k.items) x.names.keys)) × (length (map (λ k. k.items) x.names.keys) < 2 ^ 32) };
}

/// The name of the method that a line has.
fn name_said(line: &FactLine) -> &[u8]
    ensures { result.now ≡ name_said line.now }
{
    match line {
        FactLine::Total(total) => total.name.as_slice(),
        FactLine::Only(only) => only.name.as_slice(),
    }
}

/// The names of lines, each once, and for each line its number and that of its name.
fn numbered(
    alloc: Global,
    lines: &[NumberedFact],
) -> Result<(IndexSet<Vec<u8>>, Vec<(u32, u32)>), NoMemory>
    requires { length lines.now < 2 ^ 32 }
    ensures { IfOk result (λ r. AreNumbered lines.now (length lines.now) (map (λ k. k.items) r.0.keys) r.1.items) }
{
    let mut names = IndexSet::new(alloc);
    let mut numbers = Vec::with_capacity(alloc, lines.len())?;
    for i in 0..lines.len() {
        let name = Vec::from_slice(alloc, name_said(&lines[i].fact))?;
        let (number, _) = names.insert_full(name)?;
        numbers.push((i as u32, number as u32))?;
    }
    Ok((names, numbers))
}

impl LinesByName {
    /// Lines by the names of their methods.
    pub(crate) fn new(alloc: Global, lines: &[NumberedFact]) -> Result<Self, NoMemory>
        ensures { IfOk result (IsIndexOf lines.now) }
    {
        // The numbers of lines are of 32 bits.
        if u32::try_from(lines.len()).is_err() {
            return Err(NoMemory);
        }
        let (names, numbers) = numbered(alloc, lines)?;
        let lines = Sources::by_target(alloc, names.len(), &numbers)?;
        Ok(LinesByName { names, lines })
    }

    /// The numbers of the lines that have a name.
    pub(crate) fn lines_of(&self, name: &[u8]) -> &[u32]
        ensures { (lines : List NumberedFact) → IsIndexOf lines self.now → AreLinesOf lines name.now result.now }
    {
        match self.names.get_index_of(name) {
            Some(number) => self.lines.of(number as u32),
            None => &[],
        }
    }
}
