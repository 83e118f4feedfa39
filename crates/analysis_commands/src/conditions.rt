//! The conditions on a certificate, checked by the table of a program.
ghost use Rattle.std.specs.Prelude.{◌≡◌, ◌≤◌, ◌<◌, IfOk, IfErr};
ghost use Rattle.node_costs.specs.Costs.{bounds_of};
ghost use Rattle.certificates.specs.Certificate.{IsInGrammar};
ghost use Rattle.cert_checker.specs.Answer.{Meets, Refuses};
ghost use Rattle.analysis_commands.specs.Answers.{IsHeldBy, IsRefusedBy};
ghost use Rattle.analysis_commands.specs.Checking.{method_of};

use crate::analysis::Analysis;
use crate::check::CheckRefusal;
use crate::names::table_name;
use answer_lines::Held;
use bound_rules::CheckFault;
use cert_checker::check;
use certificates::Cert;
use std::alloc::Global;

/// The method that a fault speaks of.
pub(crate) fn method_of(fault: CheckFault) -> Option<u32>
    ensures { result ≡ method_of fault }
{
    match fault {
        CheckFault::Missing(m)
        | CheckFault::Member(m, _)
        | CheckFault::Edge(m, _, _)
        | CheckFault::Exit(m, _)
        | CheckFault::Region(m) => Some(m),
        CheckFault::NoMemory => None,
    }
}

/// Whether the certificate meets the conditions.
fn meets(alloc: Global, analysis: &Analysis, c: &Cert) -> Result<(), CheckFault>
    requires grammar { IsInGrammar c.now }
    requires waits { (analysis.now.timing.read ≤ 63) × (analysis.now.timing.write ≤ 63) }
    requires sizes { 0 < analysis.now.timing.block_words }
    ensures meets { IfOk result (λ _. Meets analysis.now.flow (bounds_of analysis.now.flow analysis.now.bounds) analysis.now.timing c.now) }
    ensures fault { IfErr result (Refuses analysis.now.flow (bounds_of analysis.now.flow analysis.now.bounds) analysis.now.timing c.now) }
{
    match check(alloc, &analysis.flow, &analysis.bounds, analysis.timing, c) {
        Ok(_) => Ok(()),
        Err(fault) => Err(fault),
    }
}

/// The refusal by a fault, with the name of the method of which it speaks.
fn fails(alloc: Global, analysis: &Analysis, c: &Cert, fault: CheckFault) -> CheckRefusal
    requires { Refuses analysis.now.flow (bounds_of analysis.now.flow analysis.now.bounds) analysis.now.timing c.now fault }
    ensures { IsRefusedBy analysis.now c.now result }
{
    let Some(m) = method_of(fault) else {
        return CheckRefusal::NoMemory;
    };
    match table_name(alloc, &analysis.flow, m) {
        Ok(name) => CheckRefusal::Fails(fault, name),
        Err(_) => CheckRefusal::NoMemory,
    }
}

/// What is said of a certificate that meets the conditions.
fn held(alloc: Global, analysis: &Analysis, c: &Cert) -> Result<Held, CheckRefusal>
    requires { Meets analysis.now.flow (bounds_of analysis.now.flow analysis.now.bounds) analysis.now.timing c.now }
    ensures held { IfOk result (IsHeldBy analysis.now c.now) }
    ensures refused { IfErr result (IsRefusedBy analysis.now c.now) }
{
    match table_name(alloc, &analysis.flow, c.root()) {
        Ok(name) => Ok(Held {
            root: c.root(),
            name,
            bound: c.bound(),
        }),
        Err(_) => Err(CheckRefusal::NoMemory),
    }
}

/// Checks a certificate.
pub(crate) fn check_certificate(
    alloc: Global,
    analysis: &Analysis,
    c: &Cert,
) -> Result<Held, CheckRefusal>
    requires grammar { IsInGrammar c.now }
    requires waits { (analysis.now.timing.read ≤ 63) × (analysis.now.timing.write ≤ 63) }
    requires sizes { 0 < analysis.now.timing.block_words }
    ensures held { IfOk result (IsHeldBy analysis.now c.now) }
    ensures refused { IfErr result (IsRefusedBy analysis.now c.now) }
{
    match meets(alloc, analysis, c) {
        Ok(()) => held(alloc, analysis, c),
        Err(fault) => Err(fails(alloc, analysis, c, fault)),
    }
}
