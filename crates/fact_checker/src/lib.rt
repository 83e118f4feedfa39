//! The check of certificates with prices: whether each price is of a fact, and the certificate meets the conditions of
//! `fact_rules`, section by section, or which of them fails first.
#![tactic(auto)]

ghost use Rattle.std.specs.Prelude.{◌≡◌, ◌<◌, IfOk, IfErr};
ghost use Rattle.bytecode_model.specs.Program.{Program};
ghost use Rattle.method_flow.specs.Flow.{IsFlowOf};
ghost use Rattle.node_costs.specs.Costs.{bounds_of};
ghost use Rattle.cert_checker.specs.Answer.{HasCheckWaits};
ghost use Rattle.priced_cert.specs.Certificate.{IsPricedInGrammar};
ghost use Rattle.fact_rules.specs.Conditions.{MeetsPrices};
ghost use Rattle.fact_rules.specs.Refused.{IsRefusedWithPricesOrMemory};

mod checked;
mod ending;
mod fact_index;
mod fact_prices;
mod known;
mod missing;
mod root_table;
mod section;
mod sections;

use bound_rules::CheckFault;
use bound_texts::loops::Bounds;
use cert_checker::Task;
pub use checked::CheckedPrices;
use ending::check_last;
pub use fact_rules::PricedFault;
use flow_facts::Facts;
use known::KnownPrices;
use method_flow::{FlowProgram, Timing};
use priced_cert::PricedCert;
use sections::check_sections;
use std::alloc::Global;

/// Checks a certificate with prices, of a program whose loops have these bounds and of which these facts are given: that
/// each price is of a fact, each section behind those before it, and the last line. It answers the first condition that
/// fails, or that there is no memory; so it does, too, where more than 16,777,215 prices count in an activation of the
/// root, or in one section. Its time is near linear in the program, the facts and the certificate.
pub fn check_priced_cert<'a>(
    alloc: Global,
    f: &'a FlowProgram,
    b: &'a Bounds,
    t: Timing,
    facts: &'a Facts,
    c: &'a PricedCert,
) -> Result<CheckedPrices<'a>, PricedFault>
    requires grammar { IsPricedInGrammar c.now }
    requires waits { HasCheckWaits t }
    requires sizes { 0 < t.block_words }
    ensures kept { IfOk result (λ k. k ≡ record { flow = f.now; bounds = b.now; timing = t; facts = facts.now; certificate = c.now }) }
    ensures met { IfOk result (λ _. (P : Program) → IsFlowOf P f.now → MeetsPrices P t (bounds_of f.now b.now) facts.now c.now) }
    ensures fault { IfErr result (λ e. (P : Program) → IsFlowOf P f.now → IsRefusedWithPricesOrMemory P t (bounds_of f.now b.now) facts.now c.now e) }
{
    let known = KnownPrices::new(alloc, facts, c, f.method_count())?;
    let Ok(task) = Task::new(alloc, f, b, t) else {
        return Err(PricedFault::Check(CheckFault::NoMemory));
    };
    let values = check_sections(alloc, &task, &known)?;
    check_last(&task, &values, &known)?;
    Ok(CheckedPrices::new(f, b, t, facts, c))
}
