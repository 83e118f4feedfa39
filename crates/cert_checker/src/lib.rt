//! The check of certificates of execution time: whether a certificate meets the conditions of `bound_rules`, section by section,
//! or which of them fails first. What a section is checked with is public, for the check of certificates with prices.
#![tactic(auto)]

ghost use Rattle.std.specs.Prelude.{◌≡◌, ◌<◌, IfOk, IfErr};
ghost use Rattle.certificates.specs.Certificate.{IsInGrammar};
ghost use Rattle.node_costs.specs.Costs.{bounds_of};
ghost use Rattle.cert_checker.specs.Answer.{HasCheckWaits, Meets, Refuses};

mod absent;
mod answer;
mod checked;
mod ending;
mod nodes;
mod prepared;
mod prices;
mod section;
mod sections;
mod summaries;
mod task;
mod telling;
mod values;

pub use answer::joined;
pub use bound_rules::CheckFault;
use bound_texts::loops::Bounds;
use certificates::Cert;
pub use checked::Checked;
use ending::check_last;
use method_flow::{FlowProgram, Timing};
pub use prepared::{Prepared, prepare};
pub use prices::{fees, loop_bounds};
pub use section::wrong_beside;
use sections::check_sections;
use std::alloc::Global;
pub use task::Task;
pub use telling::full;
pub use values::Values;

/// Checks a certificate of a program whose loops have these bounds: each section behind those before it, and the last line. It
/// answers the first condition that fails, or that there is no memory.
pub fn check<'a>(
    alloc: Global,
    f: &'a FlowProgram,
    b: &'a Bounds,
    t: Timing,
    c: &'a Cert,
) -> Result<Checked<'a>, CheckFault>
    requires grammar { IsInGrammar c.now }
    requires waits { HasCheckWaits t }
    requires sizes { 0 < t.block_words }
    ensures kept { IfOk result (λ k. k ≡ record { flow = f.now; bounds = b.now; timing = t; certificate = c.now }) }
    ensures met { IfOk result (λ _. Meets f.now (bounds_of f.now b.now) t c.now) }
    ensures fault { IfErr result (Refuses f.now (bounds_of f.now b.now) t c.now) }
{
    let Ok(task) = Task::new(alloc, f, b, t) else {
        return Err(CheckFault::NoMemory);
    };
    let values = check_sections(alloc, &task, c.sections())?;
    check_last(&task, &values, c)?;
    Ok(Checked::new(f, b, t, c))
}
