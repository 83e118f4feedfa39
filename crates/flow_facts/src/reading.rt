//! The text read, line by line.
ghost use Rattle.std.specs.Prelude.{◌≡◌, ◌≤◌, [], length, Contains, IfOk, IfErr, MatchOption};
ghost use Rattle.base.specs.Sizes.{longest_file};
ghost use Rattle.flow_facts.specs.Lines.{subject_of};
ghost use Rattle.flow_facts.specs.Grammar.{AreFactsRead, AreFactsRefused, subjects};
ghost use Rattle.flow_facts.specs.Adding.{IsReading, AddsLine, AddsFact, RefusesLine};

use crate::line::{NumberedFact, Subject};
use crate::line_reader::{Said, read_line};
use ascii_text::lines;
use base::NoMemory;
use indexmap::IndexSet;
use std::alloc::Global;
use thiserror::Error;

/// Why a text gives no facts.
#[derive(Debug, Drop, Error)]
pub enum FactsFault {
    /// The line of this number, counted from 1, is none of the grammar.
    #[error("line {0}: expected `NAME PC total<=N` or `NAME PC only NAME`")]
    Line(u32),
    /// The line of this number says again what a line before it says.
    #[error("line {0}: there is a fact of it already")]
    Twice(u32),
    /// There is no memory.
    #[error("no memory")]
    NoMemory,
}

impl From<NoMemory> for FactsFault {
    ghost use Rattle.std.specs.Prelude.{◌≡◌};
    ghost use Rattle.flow_facts.specs.declared.reading.FactsFault.TheVariants.{NoMemory as Spent};

    ghost from_gives = { λ _ fault. fault ≡ Spent };

    fn from(_: NoMemory) -> Self {
        FactsFault::NoMemory
    }
}

/// The facts of the lines so far, and of what they are.
#[derive(Drop)]
pub(crate) struct Reading {
    pub facts: Vec<NumberedFact>,
    pub subjects: IndexSet<Subject>,
}

/// The facts that a text gives, in the order of their lines. A line is refused where it is none of the grammar, or says
/// again how often a node is visited in a scope, or what an invoke runs.
pub fn read_facts(alloc: Global, text: &[u8]) -> Result<Vec<NumberedFact>, FactsFault>
    requires { length text.now ≤ longest_file }
    ensures read { IfOk result (λ facts. AreFactsRead text.now facts.items) }
    ensures refused { IfErr result (AreFactsRefused text.now) }
{
    let mut reading = Reading::new(alloc);
    let mut number = 0u32;
    for line in lines(text) {
        number += 1;
        reading = reading.with_line(alloc, number, line)?;
    }
    Ok(reading.facts)
}

impl Reading {
    /// No facts.
    fn new(alloc: Global) -> Self
        ensures reading { IsReading result }
        ensures none { result.facts.items ≡ [] }
    {
        Reading {
            facts: Vec::new(alloc),
            subjects: IndexSet::new(alloc),
        }
    }

    /// With what one line more says.
    fn with_line(self, alloc: Global, number: u32, line: &[u8]) -> Result<Reading, FactsFault>
        requires { IsReading self }
        ensures added { IfOk result (λ next. IsReading next × AddsLine number line.now self.facts.items next.facts.items) }
        ensures refused { IfErr result (RefusesLine number line.now self.facts.items) }
    {
        match read_line(alloc, line)? {
            Said::Nothing => Ok(self),
            Said::Fact(fact) => match self.with_fact(alloc, NumberedFact { line: number, fact })? {
                Some(next) => Ok(next),
                None => Err(FactsFault::Twice(number)),
            },
            Said::Malformed => Err(FactsFault::Line(number)),
        }
    }

    /// With one fact more, if none of them is of the same subject.
    fn with_fact(mut self, alloc: Global, fact: NumberedFact) -> Result<Option<Reading>, NoMemory>
        requires { IsReading self }
        ensures { IfOk result (λ next. MatchOption next (Contains (subjects self.facts.items) (subject_of fact.fact)) (AddsFact self fact)) }
    {
        if !self.subjects.insert(fact.fact.subject(alloc)?)? {
            return Ok(None);
        }
        self.facts.push(fact)?;
        Ok(Some(self))
    }
}
