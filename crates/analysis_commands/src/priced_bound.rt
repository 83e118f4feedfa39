//! The bound of a method of a program, by the bounds of its loops and by facts.
ghost use Rattle.std.specs.Prelude.{◌≡◌, ◌≤◌, ◌<◌, length, IfOk, IfErr, IfSome, IsTrue};
ghost use Rattle.base.specs.Sizes.{longest_file};
ghost use Rattle.command_line.specs.Range.{AreSettings};
ghost use Rattle.flow_facts.specs.Facts.{Facts};
ghost use Rattle.std.specs.Prelude.{ℕ, List};
ghost use Rattle.ascii_text.specs.Line.{lines_of as text_lines};
ghost use Rattle.priced_cert.specs.Certificate.{IsPricedInGrammar};
ghost use Rattle.priced_cert.specs.Texts.{ArePricedLinesOf, priced_text};
ghost use Rattle.analysis_commands.specs.declared.analysis.Analysis.{Analysis};
ghost use Rattle.bound_causes.specs.Naming.{IsNamedBy};
ghost use Rattle.analysis_commands.specs.BoundAnswers.{IsOfProgram, IsReadyOf, IsCertificateFor, IsSizeCauseOf, IsCauseOf, IsNotBoundedBy};
ghost use Rattle.certificates.specs.Certificate.{IsInGrammar};
ghost use Rattle.analysis_commands.specs.PricedBounds.{IsAtMost, MeetsOf, IsFoundFor, IsPricedFor, IsPricedOf, IsBoundTextWith, IsBoundTextBy, IsNotPricedBy};
ghost use Rattle.analysis_commands.specs.PricedBounds.{IsCertTextWith, IsNotBoundedWith, IsBareNotBoundedWith};

use crate::analysis::{Analysis, analysis_of, bounds_in};
use crate::bound::{NotBounded, not_bounded};
use crate::certifying::{asked, certificate_of_asked};
use crate::facts::{FactsRefusal, facts_of, text_refusal};
use crate::priced_check::meets;
use answer_lines::BoundCause;
use bound_causes::Asked;
use bound_finder::task::Task;
use bound_rules::BoundRefusal;
use bytecode_verifier::Verified;
use certificates::Cert;
use command_line::Settings;
use fact_bound::{plain_as_priced, priced_certificate};
use flow_facts::Facts;
use priced_cert::{PricedCert, is_priced_read_back, write_priced_cert};
use std::alloc::Global;

/// Why no bound of a method is given by facts.
#[derive(Drop)]
pub enum NotPriced {
    /// The text gives no facts of the program.
    NoFacts(FactsRefusal),
    /// None is given without facts.
    NotBound(NotBounded),
}

/// Whether a bound is below another, of which `None`, where a method never ends, is the least.
fn is_below(bound: Option<u64>, other: Option<u64>) -> bool
    ensures { IsTrue result → IsAtMost bound other }
{
    match (bound, other) {
        (Some(cycles), Some(others)) => cycles < others,
        (None, Some(_)) => true,
        (_, None) => false,
    }
}

/// Whether the certificate meets its conditions, and its bound is below that of another.
fn is_better(
    alloc: Global,
    analysis: &Analysis,
    facts: &Facts,
    found: &PricedCert,
    plain: &PricedCert,
) -> bool
    requires grammar { IsPricedInGrammar found.now }
    requires waits { (analysis.now.timing.read ≤ 63) × (analysis.now.timing.write ≤ 63) }
    requires sizes { 0 < analysis.now.timing.block_words }
    ensures meets { IsTrue result → MeetsOf analysis.now facts.now found.now }
    ensures below { IsTrue result → IsAtMost found.now.plain.bound plain.now.plain.bound }
{
    is_below(found.plain().bound(), plain.plain().bound())
        && meets(alloc, analysis, facts, found).is_ok()
}

/// The certificate of the method of this number with no prices.
fn unpriced(
    alloc: Global,
    analysis: &Analysis,
    root: u32,
    certificate: Cert,
) -> Result<PricedCert, BoundRefusal>
    requires certificate { IsCertificateFor analysis.now root certificate }
    requires grammar { IsInGrammar certificate }
    requires read { analysis.now.timing.read ≤ 63 }
    ensures certificate { (facts : Facts) → IfOk result (IsPricedFor analysis.now facts root) }
    ensures grammar { IfOk result IsPricedInGrammar }
    ensures memory { (root : ℕ) → IfErr result (IsSizeCauseOf analysis.now root) }
{
    match plain_as_priced(alloc, &analysis.flow, analysis.timing, certificate) {
        Ok(plain) => Ok(plain),
        Err(_) => Err(BoundRefusal::NoMemory),
    }
}

/// The certificate without prices, of a method for which all is ready.
fn plain_certificate(
    alloc: Global,
    analysis: &Analysis,
    asked: &Asked,
) -> Result<PricedCert, BoundRefusal>
    requires program { IsOfProgram analysis.now }
    requires ready { IsReadyOf analysis.now asked.now }
    requires waits { (analysis.now.timing.read ≤ 63) × (analysis.now.timing.write ≤ 63) }
    requires sizes { 0 < analysis.now.timing.block_words }
    ensures certificate { (facts : Facts) → IfOk result (IsPricedFor analysis.now facts asked.now.root) }
    ensures grammar { IfOk result IsPricedInGrammar }
    ensures cause { IfErr result (IsSizeCauseOf analysis.now asked.now.root) }
{
    match certificate_of_asked(alloc, analysis, asked) {
        Ok(certificate) => unpriced(alloc, analysis, asked.root, certificate),
        Err(refusal) => Err(refusal),
    }
}

/// A certificate by prices of the facts, where one is found. Whether it meets its conditions isn't known.
fn found_certificate(
    alloc: Global,
    analysis: &Analysis,
    facts: &Facts,
    asked: &Asked,
) -> Option<PricedCert>
    requires program { IsOfProgram analysis.now }
    requires ready { IsReadyOf analysis.now asked.now }
    requires waits { (analysis.now.timing.read ≤ 63) × (analysis.now.timing.write ≤ 63) }
    requires sizes { 0 < analysis.now.timing.block_words }
    ensures { IfSome result (IsFoundFor asked.now.root) }
{
    let Analysis {
        flow,
        bounds,
        timing,
    } = analysis;
    let task = Task::new(flow, bounds, *timing);
    match priced_certificate(alloc, &task, facts, &asked.order, asked.root) {
        Ok(found) => found,
        Err(_) => None,
    }
}

/// The certificate by prices of the facts, where one is found that meets its conditions with a lower bound than this one, without
/// prices; or else this one.
fn better_of(
    alloc: Global,
    analysis: &Analysis,
    facts: &Facts,
    asked: &Asked,
    plain: PricedCert,
) -> PricedCert
    requires program { IsOfProgram analysis.now }
    requires ready { IsReadyOf analysis.now asked.now }
    requires waits { (analysis.now.timing.read ≤ 63) × (analysis.now.timing.write ≤ 63) }
    requires sizes { 0 < analysis.now.timing.block_words }
    requires plain { IsPricedFor analysis.now facts.now asked.now.root plain }
    requires grammar { IsPricedInGrammar plain }
    ensures certificate { IsPricedFor analysis.now facts.now asked.now.root result }
    ensures grammar { IsPricedInGrammar result }
{
    match found_certificate(alloc, analysis, facts, asked) {
        Some(found) if is_better(alloc, analysis, facts, &found, &plain) => found,
        _ => plain,
    }
}

/// The better certificate of a method for which all is ready.
fn priced_certificate_of(
    alloc: Global,
    analysis: &Analysis,
    facts: &Facts,
    asked: &Asked,
) -> Result<PricedCert, BoundRefusal>
    requires program { IsOfProgram analysis.now }
    requires ready { IsReadyOf analysis.now asked.now }
    requires waits { (analysis.now.timing.read ≤ 63) × (analysis.now.timing.write ≤ 63) }
    requires sizes { 0 < analysis.now.timing.block_words }
    ensures certificate { IfOk result (IsPricedFor analysis.now facts.now asked.now.root) }
    ensures grammar { IfOk result IsPricedInGrammar }
    ensures cause { IfErr result (IsSizeCauseOf analysis.now asked.now.root) }
{
    match plain_certificate(alloc, analysis, asked) {
        Ok(plain) => Ok(better_of(alloc, analysis, facts, asked, plain)),
        Err(refusal) => Err(refusal),
    }
}

/// The certificate of the method of this name, by these facts.
fn certificate_by(
    alloc: Global,
    analysis: &Analysis,
    facts: &Facts,
    name: &[u8],
) -> Result<PricedCert, BoundRefusal>
    requires program { IsOfProgram analysis.now }
    requires waits { (analysis.now.timing.read ≤ 63) × (analysis.now.timing.write ≤ 63) }
    requires sizes { 0 < analysis.now.timing.block_words }
    ensures certificate { IfOk result (IsPricedOf analysis.now facts.now (IsNamedBy analysis.now.flow name.now)) }
    ensures grammar { IfOk result IsPricedInGrammar }
    ensures cause { IfErr result (IsCauseOf analysis.now (IsNamedBy analysis.now.flow name.now)) }
{
    match asked(alloc, analysis, name) {
        Ok(found) => priced_certificate_of(alloc, analysis, facts, &found),
        Err(refusal) => Err(refusal),
    }
}

/// The text of a certificate.
fn priced_text(alloc: Global, certificate: &PricedCert) -> Result<Vec<u8>, NotBounded>
    requires { IsPricedInGrammar certificate.now }
    ensures text { IfOk result (λ text. (text.items ≡ priced_text certificate.now) × ArePricedLinesOf (text_lines text.items) certificate.now) }
    ensures memory { (a : Analysis) (name : List ℕ) → IfErr result (IsNotBoundedBy a name) }
{
    // The law is for the proof.
    is_priced_read_back();
    match write_priced_cert(alloc, certificate) {
        Ok(text) => Ok(text),
        Err(_) => Err(NotBounded::NoMemory),
    }
}

/// The text of the certificate of the method of this name, by these facts.
fn text_with(
    alloc: Global,
    analysis: &Analysis,
    facts: &Facts,
    name: &[u8],
) -> Result<Vec<u8>, NotBounded>
    requires program { IsOfProgram analysis.now }
    requires waits { (analysis.now.timing.read ≤ 63) × (analysis.now.timing.write ≤ 63) }
    requires sizes { 0 < analysis.now.timing.block_words }
    ensures text { IfOk result (λ text. IsBoundTextWith analysis.now facts.now name.now text.items) }
    ensures refused { IfErr result (IsNotBoundedBy analysis.now name.now) }
{
    match certificate_by(alloc, analysis, facts, name) {
        Ok(certificate) => priced_text(alloc, &certificate),
        Err(refusal) => Err(not_bounded(alloc, analysis, name, &refusal)),
    }
}

/// The same, by the facts of a text.
fn text_by(
    alloc: Global,
    analysis: &Analysis,
    facts: &[u8],
    name: &[u8],
) -> Result<Vec<u8>, NotPriced>
    requires program { IsOfProgram analysis.now }
    requires waits { (analysis.now.timing.read ≤ 63) × (analysis.now.timing.write ≤ 63) }
    requires sizes { 0 < analysis.now.timing.block_words }
    requires short { length facts.now ≤ longest_file }
    ensures text { IfOk result (λ text. IsBoundTextBy analysis.now facts.now name.now text.items) }
    ensures refused { IfErr result (IsNotPricedBy analysis.now facts.now name.now) }
{
    let given = match facts_of(alloc, &analysis.flow, facts) {
        Ok(given) => given,
        Err(refusal) => return Err(NotPriced::NoFacts(refusal)),
    };
    match text_with(alloc, analysis, &given, name) {
        Ok(text) => Ok(text),
        Err(cause) => Err(NotPriced::NotBound(cause)),
    }
}

/// The text of a certificate of the bound of the method that has this name, by the settings of a machine, the text of the bounds of
/// loops and the text of facts.
///
/// # Errors
///
/// What refuses the texts first, in this order: the codes, which fit the method cache, the bounds, the facts. Then what forbids a
/// bound, as without facts.
pub fn bound_program_with(
    alloc: Global,
    program: &Verified,
    settings: &Settings,
    name: &[u8],
    bounds: &[u8],
    facts: &[u8],
) -> Result<Vec<u8>, NotPriced>
    requires settings { AreSettings settings.now }
    requires short { length bounds.now ≤ longest_file }
    requires short_facts { length facts.now ≤ longest_file }
    ensures bound { IfOk result (λ text. IsCertTextWith program.now settings.now bounds.now facts.now name.now text.items) }
    ensures refused { IfErr result (IsNotBoundedWith program.now settings.now bounds.now facts.now name.now) }
{
    match analysis_of(alloc, program, settings, bounds) {
        Ok(analysis) => text_by(alloc, &analysis, facts, name),
        Err(fault) => Err(NotPriced::NotBound(NotBounded::NoAnalysis(fault))),
    }
}

/// Why no bound is given where the image is a bare one, which has no classes: what refuses the bounds or the facts, or else that no
/// method has the name.
pub fn bound_bare_with(alloc: Global, bounds: &[u8], facts: &[u8]) -> NotPriced
    requires short { length bounds.now ≤ longest_file }
    requires short_facts { length facts.now ≤ longest_file }
    ensures { IsBareNotBoundedWith bounds.now facts.now result }
{
    if let Err(fault) = bounds_in(alloc, bounds) {
        return NotPriced::NotBound(NotBounded::NoAnalysis(fault));
    }
    match text_refusal(alloc, facts) {
        Ok(()) => {
            NotPriced::NotBound(NotBounded::Forbidden(BoundCause::NoMethod, Vec::new(alloc)))
        }
        Err(refusal) => NotPriced::NoFacts(refusal),
    }
}
