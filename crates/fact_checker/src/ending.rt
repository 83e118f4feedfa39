//! The check of the last line of a certificate with prices.
ghost use Rattle.std.specs.Prelude.{◌≡◌, ◌↔◌, ◌+◌, ◌<◌, ◌≤◌, ◌^◌, IfErr, IfSome, IsTrue, OnOk, length, option_map};
ghost use Rattle.micro_flow.specs.Costs.{IsGreatestInvoke};
ghost use Rattle.bytecode_model.specs.Program.{Program};
ghost use Rattle.method_flow.specs.Costs.{params};
ghost use Rattle.method_flow.specs.Flow.{IsFlowOf};
ghost use Rattle.fact_checker.specs.Known.{pricing};
ghost use Rattle.fact_checker.specs.Section.{IsAround, PricedLastFails, PricedLastMeets};

use super::known::KnownPrices;
use bound_rules::CheckFault;
use cert_checker::{Task, Values, full};
use fact_rules::callers_load;
use method_flow::Timing;
use micro_flow::{CostParams, greatest_invoke_cost};

/// The cycles that the dearest of the four invokes takes at most, where its look-ups hit.
fn greatest_invoke(t: Timing) -> u64
    requires read { t.read ≤ 63 }
    requires write { t.write ≤ 63 }
    ensures greatest { IsGreatestInvoke (params t 0 0) result }
{
    greatest_invoke_cost(CostParams {
        r: t.read,
        w: t.write,
        pairs: 0,
        entries: 0,
    })
}

/// What stands around the root's number with all loads: the dearest invoke, what the root pays for prices, and the greatest
/// load of a method that may call it.
fn around(task: &Task<'_>, root: u32, due: u128) -> u128
    requires { due < 2 ^ 120 }
    ensures around { (P : Program) → IsFlowOf P task.now.flow → IsAround P task.now.timing root due result }
    ensures small { result < 2 ^ 121 }
{
    let t = task.timing();
    let back = callers_load(task.flow(), root, t.read);
    u128::from(greatest_invoke(t)) + due + u128::from(back)
}

/// Whether the last line is right where the root's number with all loads is this, and so much stands around it.
fn is_line(full: Option<u128>, around: u128, bound: Option<u64>) -> bool
    requires full { IfSome full (λ n. n < 2 ^ 65) }
    requires around { around < 2 ^ 121 }
    ensures { IsTrue result ↔ (bound ≡ option_map (λ n. n + around) full) }
{
    match (full, bound) {
        (Some(full), Some(bound)) => full + around == u128::from(bound),
        (None, None) => true,
        _ => false,
    }
}

/// Checks the root and the last line, behind sections whose values these are.
pub fn check_last(
    task: &Task<'_>,
    values: &Values,
    known: &KnownPrices<'_>,
) -> Result<(), CheckFault>
    requires { values.now.methods ≡ length task.now.flow.methods }
    ensures met { OnOk result (PricedLastMeets task.now values.now.valued (pricing known.now) known.now.certificate.plain.bound) }
    ensures fails { IfErr result (PricedLastFails task.now values.now.valued (pricing known.now) known.now.certificate.plain.bound) }
{
    let root = known.root();
    if root >= task.flow().method_count() {
        return Err(CheckFault::Missing(root));
    }
    let Some(full) = full(task, values, root) else {
        return Err(CheckFault::Missing(root));
    };
    if is_line(full, around(task, root, known.root_due()), known.bound()) {
        Ok(())
    } else {
        Err(CheckFault::Region(root))
    }
}
