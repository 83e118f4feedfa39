//! The bound of a method's execution time (JOP Reference Handbook, "Method Cache"): the numbers of all methods that may run while
//! it does, targets first, and a certificate that shows them.
#![tactic(auto)]

ghost use Rattle.std.specs.Prelude.{◌≡◌, ◌≢◌, ◌≤◌, ◌<◌, ℕ, length, All, IfOk, IfErr, Some, slice_get};
ghost use Rattle.bytecode_model.specs.Program.{Program};
ghost use Rattle.method_cache.specs.Regions.Region.{AreDistinct};
ghost use Rattle.method_flow.specs.Flow.{IsFlowOf};
ghost use Rattle.node_costs.specs.Costs.{bounds_of};
ghost use Rattle.certificates.specs.declared.lines.line.SectionKind.TheVariants.{Alone};
ghost use Rattle.certificates.specs.Certificate.{IsInGrammar};
ghost use Rattle.bound_rules.specs.Bounding.{KeepSize};
ghost use Rattle.bound_rules.specs.Conditions.{MeetsConditions};
ghost use Rattle.bound_rules.specs.Numbers.{IsPrinted};
ghost use Rattle.bound_finder.specs.declared.ending.MethodBound.{MethodBound};
ghost use Rattle.bound_finder.specs.Certified.{AreEmptyIfEndless};
ghost use Rattle.bound_finder.specs.Ending.{IsMethodBound};
ghost use Rattle.bound_finder.specs.Ready.{AreReady, IsReadyOrder, IsSizeCause};

mod charges;
pub mod costs;
pub mod ending;
pub mod fit;
mod found;
pub mod found_laws;
pub mod known;
pub mod laws;
pub mod methods;
pub mod prepared;
mod shape;
mod sharing;
pub mod show_laws;
pub mod task;
mod telling;

use base::NoMemory;
use bound_rules::BoundRefusal;
use bound_texts::loops::Bounds;
use call_regions::Order;
use certificates::Cert;
pub use ending::MethodBound;
use ending::certificate;
use method_flow::{FlowProgram, Timing};
use methods::examine_all;
use sharing::shared;
use std::alloc::Global;
use task::Task;

/// The certificate of the method `root`, where `order` has all methods that may run while it does, targets first, their graphs are
/// reducible, and each of their loops has a bound.
///
/// # Errors
///
/// `TooLarge` for the least method with a number, or iterations of its loops together, past 64 bits.
pub fn certify(
    alloc: Global,
    f: &FlowProgram,
    b: &Bounds,
    t: Timing,
    root: u32,
    order: &Order,
) -> Result<Cert, BoundRefusal>
    requires read { t.read ≤ 63 }
    requires write { t.write ≤ 63 }
    requires sizes { 0 < t.block_words }
    requires root { root < length f.now.methods }
    requires known { All (λ m. m < length f.now.methods) order.now.methods }
    requires distinct { AreDistinct order.now.methods }
    requires ready { (P : Program) → IsFlowOf P f.now → IsReadyOrder P (bounds_of f.now b.now) root order.now.methods }
    ensures grammar { IfOk result (λ c. IsInGrammar c × (c.version ≡ 2) × (c.root ≡ root)) }
    ensures meets { IfOk result (λ c. (P : Program) → IsFlowOf P f.now → MeetsConditions P t (bounds_of f.now b.now) c) }
    ensures kinds { IfOk result (λ c. All (λ s. s.kind ≢ Alone) c.sections) }
    ensures empty { IfOk result (λ c. (P : Program) → IsFlowOf P f.now → AreEmptyIfEndless P c.sections) }
    ensures printed { IfOk result (λ c. (P : Program) → IsFlowOf P f.now → IsPrinted P t (bounds_of f.now b.now) root c.bound) }
    ensures kept { IfOk result (λ _. (P : Program) → IsFlowOf P f.now → KeepSize P t (bounds_of f.now b.now) root) }
    ensures cause { IfErr result (λ e. (P : Program) → IsFlowOf P f.now → IsSizeCause P t (bounds_of f.now b.now) root e) }
{
    let task = Task::new(f, b, t);
    let found = examine_all(alloc, &task, order.methods.as_slice())?;
    certificate(&task, root, found)
}

/// What `certify` answers of each method of the order, the certificates apart. Each stands behind all that it may call, their graphs
/// are reducible, and each of their loops has a bound; no one of them need be the root of all.
pub fn bounds_of_all(
    alloc: Global,
    f: &FlowProgram,
    b: &Bounds,
    t: Timing,
    order: &Order,
) -> Result<Vec<MethodBound>, NoMemory>
    requires read { t.read ≤ 63 }
    requires write { t.write ≤ 63 }
    requires sizes { 0 < t.block_words }
    requires known { All (λ m. m < length f.now.methods) order.now.methods }
    requires distinct { AreDistinct order.now.methods }
    requires ready { (P : Program) → IsFlowOf P f.now → AreReady P (bounds_of f.now b.now) order.now.methods }
    ensures long { IfOk result (λ bounds. length bounds.items ≡ length order.now.methods) }
    ensures bounds { IfOk result (λ bounds. (P : Program) → IsFlowOf P f.now → (i m : ℕ) (x : MethodBound) → slice_get order.now.methods i ≡ Some m
        → slice_get bounds.items i ≡ Some x → IsMethodBound P t (bounds_of f.now b.now) m x) }
{
    let task = Task::new(f, b, t);
    match examine_all(alloc, &task, order.methods.as_slice()) {
        Ok(found) => shared(alloc, &task, order.methods.as_slice(), &found),
        Err(_) => Err(NoMemory),
    }
}
