//! The facts that lines say, in numbers of a program's table: methods by name, places of their codes, and the loops of
//! their graphs. A line that says nothing of the program is refused, since a fact of nothing would be a promise that
//! nobody looks at.
#![tactic(auto)]

ghost use Rattle.std.specs.Prelude.{IfErr, IfOk};
ghost use Rattle.fact_names.specs.Refused.{AreNamed, AreOwn, AreUnnamed};

mod fault;
mod index;
mod laws;
mod loops;
mod making;
mod naming;
mod places;
mod reach;

pub use fault::NameFault;
use flow_facts::{Facts, NumberedFact};
pub use laws::{meanings_are_one, meant_is_not_refused, worked_examples};
use making::{facts_of, first_other};
use method_flow::FlowProgram;
use naming::found_of;
use std::alloc::Global;

/// The facts of lines in the numbers of a table, in the order of the lines. The first line is refused whose scope is not
/// of an activation of its own method, and else the first that says nothing of the program: no method with code has its
/// name, no instruction begins at its place, the instruction at its raise step can't raise, or no loop with its header
/// has its node.
pub fn named_facts(
    alloc: Global,
    f: &FlowProgram,
    lines: &[NumberedFact],
) -> Result<Facts, NameFault>
    ensures facts { IfOk result (AreNamed f.now lines.now) }
    ensures fault { IfErr result (AreUnnamed f.now lines.now) }
{
    match first_other(lines) {
        Some(number) => Err(NameFault::Scope(number)),
        None => own_facts(alloc, f, lines),
    }
}

/// The same of lines whose scopes are of activations of their own methods.
fn own_facts(alloc: Global, f: &FlowProgram, lines: &[NumberedFact]) -> Result<Facts, NameFault>
    requires { AreOwn lines.now }
    ensures facts { IfOk result (AreNamed f.now lines.now) }
    ensures fault { IfErr result (AreUnnamed f.now lines.now) }
{
    let found = found_of(alloc, f, lines)?;
    facts_of(alloc, lines, &found)
}
