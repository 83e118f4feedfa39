//! What bounds of execution time a program's methods have: of each method with code the number that is printed of it, or why none is.
//! What is found of a method is shared by all that call it. The definitions stand in `specs/`.
#![tactic(auto)]

ghost use Rattle.std.specs.Prelude.{◌≡◌, ◌≤◌, ◌<◌, ℕ, length, IfOk, Some, slice_get};
ghost use Rattle.bytecode_model.specs.Program.{Program};
ghost use Rattle.method_flow.specs.Flow.{IsFlowOf};
ghost use Rattle.node_costs.specs.Costs.{bounds_of};
ghost use Rattle.method_bounds.specs.declared.answer.BoundAnswer.{BoundAnswer};
ghost use Rattle.method_bounds.specs.Answers.{IsBoundAnswer};
ghost use Rattle.method_bounds.specs.Lines.{AreBoundLines, name_in};

mod answer;
mod answers;
mod calls;
mod causes;
mod lines;
mod loops;
mod profile;
mod sorting;
mod walk;

pub use answer::BoundAnswer;
use answers::answers_of;
use base::NoMemory;
use bound_texts::loops::Bounds;
use lines::lines_of;
use loops::all_loops;
use method_flow::{FlowProgram, Timing};
pub use profile::put_profile;
use sorting::sort_all;
use std::alloc::Global;

/// What is answered of each method with code, by its number: the cycles of its bound, that it never ends, or why no bound of it is
/// given. The method that starts the program has an answer as every other one.
pub fn method_bounds(
    alloc: Global,
    f: &FlowProgram,
    b: &Bounds,
    t: Timing,
) -> Result<Vec<BoundAnswer>, NoMemory>
    requires read { t.read ≤ 63 }
    requires write { t.write ≤ 63 }
    requires sizes { 0 < t.block_words }
    ensures long { IfOk result (λ answers. length answers.items ≡ length f.now.methods) }
    ensures each { IfOk result (λ answers. (P : Program) → IsFlowOf P f.now → (m : ℕ) (x : BoundAnswer) → slice_get answers.items m ≡ Some x
        → IsBoundAnswer P t (bounds_of f.now b.now) m x) }
{
    let loops = all_loops(alloc, f, b)?;
    let sorted = sort_all(alloc, f, &loops)?;
    answers_of(alloc, f, b, t, &sorted)
}

/// The lines of the bounds of all methods with code, by number, the one that starts the program apart: `NAME bound=N`,
/// `NAME bound=never`, or `NAME bound=none CAUSE`.
pub fn bound_lines(
    alloc: Global,
    f: &FlowProgram,
    b: &Bounds,
    t: Timing,
) -> Result<Vec<u8>, NoMemory>
    requires read { t.read ≤ 63 }
    requires write { t.write ≤ 63 }
    requires sizes { 0 < t.block_words }
    ensures { IfOk result (λ text. (P : Program) → IsFlowOf P f.now → AreBoundLines P t (bounds_of f.now b.now) (name_in f.now) text.items) }
{
    let answers = method_bounds(alloc, f, b, t)?;
    lines_of(alloc, f, &answers)
}
