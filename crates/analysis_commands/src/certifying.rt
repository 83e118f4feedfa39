//! The certificate of a method that is asked for, by the table of a program.
ghost use Rattle.std.specs.Prelude.{◌≡◌, ◌≤◌, ◌<◌, ℕ, List, length, IfOk, IfErr};
ghost use Rattle.ascii_text.specs.Line.{lines_of as text_lines};
ghost use Rattle.certificates.specs.Certificate.{IsInGrammar};
ghost use Rattle.certificates.specs.Texts.{AreLinesOf, text_of};
ghost use Rattle.bound_causes.specs.Naming.{IsNamedBy};
ghost use Rattle.analysis_commands.specs.declared.analysis.Analysis.{Analysis};
ghost use Rattle.analysis_commands.specs.BoundAnswers.{IsOfProgram, IsAskedOf, IsCertificateOf, IsCauseOf, IsNotBoundedBy};
ghost use Rattle.analysis_commands.specs.BoundAnswers.{IsReadyOf, IsCertificateFor, IsSizeCauseOf};

use crate::analysis::Analysis;
use crate::bound::NotBounded;
use bound_causes::{Asked, cause_before_size, cause_of_root};
use bound_finder::certify;
use bound_rules::BoundRefusal;
use certificates::{Cert, is_read_back, write_cert};
use std::alloc::Global;

/// The method that has this name, and what may run while it does, where nothing but its size forbids a bound of it; or what does.
pub fn asked(alloc: Global, analysis: &Analysis, name: &[u8]) -> Result<Asked, BoundRefusal>
    ensures asked { IfOk result (IsAskedOf analysis.now (IsNamedBy analysis.now.flow name.now)) }
    ensures cause { IfErr result (IsCauseOf analysis.now (IsNamedBy analysis.now.flow name.now)) }
{
    cause_before_size(alloc, &analysis.flow, &analysis.bounds, name)
}

/// The method of this number, where nothing but its size forbids a bound. The one that starts the program isn't asked for.
fn asked_by_number(alloc: Global, analysis: &Analysis, method: u32) -> Result<Asked, BoundRefusal>
    requires { method < length analysis.now.flow.methods }
    ensures asked { IfOk result (IsAskedOf analysis.now (λ m. m ≡ method)) }
    ensures cause { IfErr result (IsCauseOf analysis.now (λ m. m ≡ method)) }
{
    if method == analysis.flow.boot() {
        return Err(BoundRefusal::NoMethod);
    }
    cause_of_root(alloc, &analysis.flow, &analysis.bounds, method)
}

/// The certificate of a method for which all is ready.
pub(crate) fn certificate_of_asked(
    alloc: Global,
    analysis: &Analysis,
    found: &Asked,
) -> Result<Cert, BoundRefusal>
    requires program { IsOfProgram analysis.now }
    requires ready { IsReadyOf analysis.now found.now }
    requires waits { (analysis.now.timing.read ≤ 63) × (analysis.now.timing.write ≤ 63) }
    requires sizes { 0 < analysis.now.timing.block_words }
    ensures certificate { IfOk result (IsCertificateFor analysis.now found.now.root) }
    ensures grammar { IfOk result IsInGrammar }
    ensures cause { IfErr result (IsSizeCauseOf analysis.now found.now.root) }
{
    let Analysis {
        flow,
        bounds,
        timing,
    } = analysis;
    certify(alloc, flow, bounds, *timing, found.root, &found.order)
}

/// The certificate of the method of this name.
pub(crate) fn certificate_of(
    alloc: Global,
    analysis: &Analysis,
    name: &[u8],
) -> Result<Cert, BoundRefusal>
    requires program { IsOfProgram analysis.now }
    requires waits { (analysis.now.timing.read ≤ 63) × (analysis.now.timing.write ≤ 63) }
    requires sizes { 0 < analysis.now.timing.block_words }
    ensures certificate { IfOk result (IsCertificateOf analysis.now (IsNamedBy analysis.now.flow name.now)) }
    ensures grammar { IfOk result IsInGrammar }
    ensures cause { IfErr result (IsCauseOf analysis.now (IsNamedBy analysis.now.flow name.now)) }
{
    match asked(alloc, analysis, name) {
        Ok(found) => certificate_of_asked(alloc, analysis, &found),
        Err(refusal) => Err(refusal),
    }
}

/// The certificate of the method of this number.
pub fn certificate_by_number(
    alloc: Global,
    analysis: &Analysis,
    method: u32,
) -> Result<Cert, BoundRefusal>
    requires program { IsOfProgram analysis.now }
    requires known { method < length analysis.now.flow.methods }
    requires waits { (analysis.now.timing.read ≤ 63) × (analysis.now.timing.write ≤ 63) }
    requires sizes { 0 < analysis.now.timing.block_words }
    ensures certificate { IfOk result (IsCertificateOf analysis.now (λ m. m ≡ method)) }
    ensures grammar { IfOk result IsInGrammar }
    ensures cause { IfErr result (IsCauseOf analysis.now (λ m. m ≡ method)) }
{
    match asked_by_number(alloc, analysis, method) {
        Ok(found) => certificate_of_asked(alloc, analysis, &found),
        Err(refusal) => Err(refusal),
    }
}

/// The text of a certificate.
pub(crate) fn certificate_text(alloc: Global, certificate: &Cert) -> Result<Vec<u8>, NotBounded>
    requires { IsInGrammar certificate.now }
    ensures text { IfOk result (λ text. (text.items ≡ text_of certificate.now) × AreLinesOf (text_lines text.items) certificate.now) }
    ensures memory { (a : Analysis) (name : List ℕ) → IfErr result (IsNotBoundedBy a name) }
{
    // The law is for the proof.
    is_read_back();
    match write_cert(alloc, certificate) {
        Ok(text) => Ok(text),
        Err(_) => Err(NotBounded::NoMemory),
    }
}
