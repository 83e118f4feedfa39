//! What is answered of each method, once they are sorted.
ghost use Rattle.std.specs.Prelude.{◌≡◌, ◌≤◌, ◌<◌, ℕ, length, map, All, IfOk, Some, slice_get};
ghost use Rattle.bytecode_model.specs.Program.{Program};
ghost use Rattle.method_flow.specs.Flow.{IsFlowOf};
ghost use Rattle.node_costs.specs.Costs.{bounds_of};
ghost use Rattle.call_regions.specs.Regions.{AreKnown};
ghost use Rattle.method_bounds.specs.declared.answer.BoundAnswer.{BoundAnswer};
ghost use Rattle.method_bounds.specs.Answers.{IsBoundAnswer};
ghost use Rattle.method_bounds.specs.Answering.{answer_by, refused_by, AreWritten};
ghost use Rattle.method_bounds.specs.Sorting.{AreSorted};

use super::answer::BoundAnswer;
use super::sorting::Sorted;
use answer_lines::BoundCause;
use base::NoMemory;
use bound_finder::{MethodBound, bounds_of_all};
use bound_texts::loops::Bounds;
use method_flow::{FlowProgram, Timing};
use std::alloc::Global;

/// What is answered where only a size may forbid a bound.
fn answer_by(bound: MethodBound) -> BoundAnswer
    ensures { result ≡ answer_by bound }
{
    match bound {
        MethodBound::Printed(Some(cycles)) => BoundAnswer::Cycles(cycles),
        MethodBound::Printed(None) => BoundAnswer::Never,
        MethodBound::TooLarge(m) => BoundAnswer::Refused(BoundCause::TooLarge(m)),
    }
}

/// What is answered where this forbids a bound. Where nothing does, the answer is written later.
fn refused_by(cause: Option<BoundCause>) -> BoundAnswer
    ensures { result ≡ refused_by cause }
{
    match cause {
        Some(cause) => BoundAnswer::Refused(cause),
        None => BoundAnswer::Never,
    }
}

/// The answers of the methods that these causes forbid a bound of, by number.
fn refusals(alloc: Global, causes: &[Option<BoundCause>]) -> Result<Vec<BoundAnswer>, NoMemory>
    ensures { IfOk result (λ answers. answers.items ≡ map refused_by causes.now) }
{
    let mut answers = Vec::new(alloc);
    for cause in causes {
        answers.push(refused_by(*cause))?;
    }
    Ok(answers)
}

/// Writes the answers of these methods by their bounds.
fn write_all(answers: &mut [BoundAnswer], order: &[u32], bounds: &[MethodBound])
    requires known { All (λ m. m < length answers.old) order.now }
    requires long { length bounds.now ≡ length order.now }
    ensures { AreWritten order.now bounds.now answers.old answers.new }
{
    for (i, m) in order.iter().enumerate() {
        answers[*m as usize] = answer_by(bounds[i]);
    }
}

/// What is answered of each method, by number.
pub fn answers_of(
    alloc: Global,
    f: &FlowProgram,
    b: &Bounds,
    t: Timing,
    sorted: &Sorted,
) -> Result<Vec<BoundAnswer>, NoMemory>
    requires read { t.read ≤ 63 }
    requires write { t.write ≤ 63 }
    requires sizes { 0 < t.block_words }
    requires long { length sorted.now.causes.items ≡ length f.now.methods }
    requires known { AreKnown f.now sorted.now.order.methods }
    requires sorted { AreSorted f.now b.now sorted.now.causes.items sorted.now.order.methods }
    ensures long { IfOk result (λ answers. length answers.items ≡ length f.now.methods) }
    ensures each { IfOk result (λ answers. (P : Program) → IsFlowOf P f.now → (m : ℕ) (x : BoundAnswer) → slice_get answers.items m ≡ Some x
        → IsBoundAnswer P t (bounds_of f.now b.now) m x) }
{
    let bounds = bounds_of_all(alloc, f, b, t, &sorted.order)?;
    let mut answers = refusals(alloc, &sorted.causes)?;
    write_all(&mut answers, sorted.order.methods.as_slice(), &bounds);
    Ok(answers)
}
