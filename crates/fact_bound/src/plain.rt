//! A certificate without prices as one of version 3.
ghost use Rattle.std.specs.Prelude.{◌≡◌, ◌≢◌, ◌≤◌, ◌-◌, ℕ, [], Option, All, map, option_map, replicate, IfOk};
ghost use Rattle.bytecode_model.specs.Program.{Program};
ghost use Rattle.certificates.specs.declared.lines.line.SectionKind.TheVariants.{Alone};
ghost use Rattle.certificates.specs.Certificate.{IsInGrammar};
ghost use Rattle.method_flow.specs.Flow.{IsFlowOf};
ghost use Rattle.method_flow.specs.Keeping.{BoundOf};
ghost use Rattle.bound_rules.specs.Conditions.{IsRight, MeetsConditions};
ghost use Rattle.flow_facts.specs.Facts.{Facts};
ghost use Rattle.priced_cert.specs.Certificate.{IsPricedInGrammar};
ghost use Rattle.fact_rules.specs.Conditions.{IsPricedRight, MeetsPrices};
ghost use Rattle.fact_rules.specs.Laws.{unpriced};
ghost use Rattle.bound_finder.specs.Certified.{AreEmptyIfEndless};
ghost use Rattle.fact_bound.specs.Plain.{IsAtMost};

use base::NoMemory;
use certificates::Cert;
use fact_rules::callers_load;
use method_flow::{FlowProgram, Timing};
use node_costs::greatest_load;
use priced_cert::{PricedCert, Prices};
use std::alloc::Global;

/// A bound with so many cycles less.
fn lessened(bound: Option<u64>, cycles: u64) -> Option<u64>
    ensures { result ≡ option_map (λ n. n - cycles) bound }
{
    match bound {
        Some(n) => Some(n.saturating_sub(cycles)),
        None => None,
    }
}

/// The last line for the root where the greatest load of a method that may call it stands for that of any method.
pub(crate) fn with_callers_load(
    f: &FlowProgram,
    t: Timing,
    root: u32,
    bound: Option<u64>,
) -> Option<u64>
    requires { t.read ≤ 63 }
    ensures right { (P : Program) (full : Option ℕ) → IsFlowOf P f.now → IsRight P t full bound → IsPricedRight P t root 0 full result }
    ensures at_most { IsAtMost result bound }
{
    let any = greatest_load(f, t.read);
    let callers = callers_load(f, root, t.read);
    lessened(bound, any.saturating_sub(callers))
}

/// No prices, for each of so many sections.
fn no_prices(alloc: Global, sections: usize) -> Result<Vec<Prices>, NoMemory>
    ensures { IfOk result (λ prices. prices.items ≡ replicate sections []) }
{
    let mut prices = Vec::new(alloc);
    for _ in 0..sections {
        prices.push(Prices::new(Vec::new(alloc)))?;
    }
    Ok(prices)
}

/// The certificate with no prices, whose last line has the greatest load of a method that may call the root in place of the
/// greatest of all loads. Where it meets its conditions, the answer meets those on certificates with prices, whatever the facts
/// are, and its bound isn't greater.
pub fn plain_as_priced(
    alloc: Global,
    f: &FlowProgram,
    t: Timing,
    c: Cert,
) -> Result<PricedCert, NoMemory>
    requires { t.read ≤ 63 }
    ensures same { IfOk result (λ p. p ≡ unpriced c p.plain.bound) }
    ensures at_most { IfOk result (λ p. IsAtMost p.plain.bound c.bound) }
    ensures grammar { IfOk result (λ p. IsInGrammar c → c.version ≡ 2 → All (λ s. s.kind ≢ Alone) c.sections → IsPricedInGrammar p) }
    ensures met { IfOk result (λ p. (P : Program) (bound_of : BoundOf) (facts : Facts) → IsFlowOf P f.now → AreEmptyIfEndless P c.sections
        → MeetsConditions P t bound_of c → MeetsPrices P t bound_of facts p) }
{
    fact_rules::laws::plain_is_priced();
    let version = c.version();
    let root = c.root();
    let bound = with_callers_load(f, t, root, c.bound());
    let sections = c.into_sections();
    let prices = no_prices(alloc, sections.len())?;
    Ok(PricedCert::new(
        Cert::new(version, root, sections, bound),
        Vec::new(alloc),
        prices,
    ))
}
