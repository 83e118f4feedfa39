//! The facts that a text gives of a program.
ghost use Rattle.std.specs.Prelude.{◌≤◌, length, IfErr, IfOk};
ghost use Rattle.base.specs.Sizes.{longest_file};
ghost use Rattle.flow_facts.specs.Grammar.{AreFactsRead};
ghost use Rattle.analysis_commands.specs.Facts.{AreFactsBy, AreFactsGiven, IsRefusalBy, IsTextRefusal};

use fact_names::{NameFault, named_facts};
use flow_facts::{Facts, FactsFault, NumberedFact, read_facts};
use method_flow::FlowProgram;
use std::alloc::Global;

/// Why a text gives no facts of a program.
#[derive(Clone, Copy)]
pub enum FactsRefusal {
    /// The line of this number, counted from 1, is the first that is none of the grammar; or, where all are, the first
    /// that isn't of activations of the method that it names.
    BadFacts(u32),
    /// The line of this number says again what a line before it says.
    TwiceFact(u32),
    /// The line of this number is the first that says nothing of the program.
    NoFact(u32),
    /// There was no memory.
    NoMemory,
}

/// The lines of a text of facts.
fn lines_in(alloc: Global, text: &[u8]) -> Result<Vec<NumberedFact>, FactsRefusal>
    requires { length text.now ≤ longest_file }
    ensures read { IfOk result (λ lines. AreFactsRead text.now lines.items) }
    ensures refused { IfErr result (IsTextRefusal text.now) }
{
    match read_facts(alloc, text) {
        Ok(lines) => Ok(lines),
        Err(FactsFault::Line(number)) => Err(FactsRefusal::BadFacts(number)),
        Err(FactsFault::Twice(number)) => Err(FactsRefusal::TwiceFact(number)),
        Err(FactsFault::NoMemory) => Err(FactsRefusal::NoMemory),
    }
}

/// The facts of lines, in numbers of the table of a program.
fn facts_named(
    alloc: Global,
    flow: &FlowProgram,
    text: &[u8],
    lines: &[NumberedFact],
) -> Result<Facts, FactsRefusal>
    requires { AreFactsRead text.now lines.now }
    ensures facts { IfOk result (AreFactsBy flow.now text.now) }
    ensures refused { IfErr result (IsRefusalBy flow.now text.now) }
{
    match named_facts(alloc, flow, lines) {
        Ok(facts) => Ok(facts),
        Err(NameFault::Scope(number)) => Err(FactsRefusal::BadFacts(number)),
        Err(NameFault::Line(number)) => Err(FactsRefusal::NoFact(number)),
        Err(NameFault::NoMemory) => Err(FactsRefusal::NoMemory),
    }
}

/// The facts that a text gives of a program with this table.
pub(crate) fn facts_of(
    alloc: Global,
    flow: &FlowProgram,
    text: &[u8],
) -> Result<Facts, FactsRefusal>
    requires { length text.now ≤ longest_file }
    ensures facts { IfOk result (AreFactsBy flow.now text.now) }
    ensures refused { IfErr result (IsRefusalBy flow.now text.now) }
{
    match lines_in(alloc, text) {
        Ok(lines) => facts_named(alloc, flow, text, lines.as_slice()),
        Err(refusal) => Err(refusal),
    }
}

/// Why a text gives no facts of any program, if it does not.
pub(crate) fn text_refusal(alloc: Global, text: &[u8]) -> Result<(), FactsRefusal>
    requires { length text.now ≤ longest_file }
    ensures read { IfOk result (λ _. AreFactsGiven text.now) }
    ensures refused { IfErr result (IsTextRefusal text.now) }
{
    match lines_in(alloc, text) {
        Ok(_) => Ok(()),
        Err(refusal) => Err(refusal),
    }
}
