//! A certificate, checked against a program, the bounds of its loops and facts.
ghost use Rattle.std.specs.Prelude.{◌≡◌, ◌≤◌, ◌<◌, length, IfOk, IfErr};
ghost use Rattle.base.specs.Sizes.{longest_file};
ghost use Rattle.ascii_text.specs.Line.{lines_of as text_lines};
ghost use Rattle.command_line.specs.Range.{AreSettings};
ghost use Rattle.priced_cert.specs.Certificate.{IsPricedInGrammar};
ghost use Rattle.priced_cert.specs.Texts.{ArePricedLinesOf, SaysPriced};
ghost use Rattle.analysis_commands.specs.PricedBounds.{MeetsOf};
ghost use Rattle.analysis_commands.specs.PricedChecks.{IsHeldByFacts, IsNotHeldWith, IsBareNotHeldWith, IsBarePricedRefusal, IsPricedTextFault, RefusesOf};
ghost use Rattle.analysis_commands.specs.PricedChecks.{IsNoPriceOf, IsFailureOf, IsHeldPriced, IsUnheldPriced, IsHeldInPriced, IsUnheldInPriced};
ghost use Rattle.analysis_commands.specs.PricedChecks.{IsHeldInBoth, IsUnheldInBoth, IsHeldByTexts, IsUnheldByTexts};

use crate::analysis::{Analysis, analysis_of, bounds_in};
use crate::check::{CheckRefusal, check_text, first_method, missing};
use crate::conditions::method_of;
use crate::facts::{FactsRefusal, facts_of, text_refusal};
use crate::names::{number_text, table_name};
use answer_lines::Held;
use bound_rules::CheckFault;
use bytecode_verifier::Verified;
use certificates::CertFault;
use command_line::Settings;
use fact_checker::{PricedFault, check_priced_cert};
use flow_facts::Facts;
use priced_cert::{PricedCert, is_priced, read_priced_cert};
use std::alloc::Global;

/// Why nothing is held of a certificate by facts.
#[derive(Drop)]
pub enum NotHeld {
    /// The text gives no facts of the program.
    NoFacts(FactsRefusal),
    /// No fact is given of the first such price of the certificate: the number of its method, its node, and the method's name.
    NoPrice(u32, u32, Vec<u8>),
    /// There is no analysis, or this refuses the certificate.
    Refused(CheckRefusal),
}

/// The certificate of version 3 that a text gives.
fn certificate_in(alloc: Global, text: &[u8]) -> Result<PricedCert, CheckRefusal>
    ensures read { IfOk result (ArePricedLinesOf (text_lines text.now)) }
    ensures fault { IfErr result (IsPricedTextFault text.now) }
{
    match read_priced_cert(alloc, text) {
        Ok(certificate) => Ok(certificate),
        Err(CertFault::Line(line)) => Err(CheckRefusal::BadCert(line)),
        Err(CertFault::NoMemory) => Err(CheckRefusal::NoMemory),
    }
}

/// Whether the certificate meets the conditions by the facts.
pub(crate) fn meets(
    alloc: Global,
    analysis: &Analysis,
    facts: &Facts,
    c: &PricedCert,
) -> Result<(), PricedFault>
    requires grammar { IsPricedInGrammar c.now }
    requires waits { (analysis.now.timing.read ≤ 63) × (analysis.now.timing.write ≤ 63) }
    requires sizes { 0 < analysis.now.timing.block_words }
    ensures meets { IfOk result (λ _. MeetsOf analysis.now facts.now c.now) }
    ensures fault { IfErr result (RefusesOf analysis.now facts.now c.now) }
{
    let Analysis {
        flow,
        bounds,
        timing,
    } = analysis;
    match check_priced_cert(alloc, flow, bounds, *timing, facts, c) {
        Ok(_) => Ok(()),
        Err(fault) => Err(fault),
    }
}

/// The refusal of a certificate, one of whose prices is of no fact.
fn without_fact(alloc: Global, analysis: &Analysis, m: u32, node: u32) -> NotHeld
    ensures { IsNoPriceOf analysis.now.flow m node result }
{
    match table_name(alloc, &analysis.flow, m) {
        Ok(name) => NotHeld::NoPrice(m, node, name),
        Err(_) => NotHeld::Refused(CheckRefusal::NoMemory),
    }
}

/// The refusal by a fault of the conditions, with the name of the method of which it speaks.
fn failing(alloc: Global, analysis: &Analysis, fault: CheckFault) -> NotHeld
    ensures { IsFailureOf analysis.now.flow fault result }
{
    let Some(m) = method_of(fault) else {
        return NotHeld::Refused(CheckRefusal::NoMemory);
    };
    match table_name(alloc, &analysis.flow, m) {
        Ok(name) => NotHeld::Refused(CheckRefusal::Fails(fault, name)),
        Err(_) => NotHeld::Refused(CheckRefusal::NoMemory),
    }
}

/// The refusal by a fault.
fn fails(
    alloc: Global,
    analysis: &Analysis,
    facts: &Facts,
    c: &PricedCert,
    fault: PricedFault,
) -> NotHeld
    requires { RefusesOf analysis.now facts.now c.now fault }
    ensures { IsUnheldPriced analysis.now facts.now c.now result }
{
    match fault {
        PricedFault::Price(m, node) => without_fact(alloc, analysis, m, node),
        PricedFault::Check(fault) => failing(alloc, analysis, fault),
    }
}

/// What is said of a certificate that meets the conditions.
fn held(alloc: Global, analysis: &Analysis, facts: &Facts, c: &PricedCert) -> Result<Held, NotHeld>
    requires { MeetsOf analysis.now facts.now c.now }
    ensures held { IfOk result (IsHeldPriced analysis.now facts.now c.now) }
    ensures refused { IfErr result (IsUnheldPriced analysis.now facts.now c.now) }
{
    let root = c.plain().root();
    match table_name(alloc, &analysis.flow, root) {
        Ok(name) => Ok(Held {
            root,
            name,
            bound: c.plain().bound(),
        }),
        Err(_) => Err(NotHeld::Refused(CheckRefusal::NoMemory)),
    }
}

/// Checks a certificate by facts.
fn check_priced(
    alloc: Global,
    analysis: &Analysis,
    facts: &Facts,
    c: &PricedCert,
) -> Result<Held, NotHeld>
    requires grammar { IsPricedInGrammar c.now }
    requires waits { (analysis.now.timing.read ≤ 63) × (analysis.now.timing.write ≤ 63) }
    requires sizes { 0 < analysis.now.timing.block_words }
    ensures held { IfOk result (IsHeldPriced analysis.now facts.now c.now) }
    ensures refused { IfErr result (IsUnheldPriced analysis.now facts.now c.now) }
{
    match meets(alloc, analysis, facts, c) {
        Ok(()) => held(alloc, analysis, facts, c),
        Err(fault) => Err(fails(alloc, analysis, facts, c, fault)),
    }
}

/// Checks the certificate of version 3 of a text by facts.
fn check_priced_text(
    alloc: Global,
    analysis: &Analysis,
    facts: &Facts,
    text: &[u8],
) -> Result<Held, NotHeld>
    requires priced { SaysPriced (text_lines text.now) }
    requires waits { (analysis.now.timing.read ≤ 63) × (analysis.now.timing.write ≤ 63) }
    requires sizes { 0 < analysis.now.timing.block_words }
    ensures held { IfOk result (IsHeldInPriced analysis.now facts.now text.now) }
    ensures refused { IfErr result (IsUnheldInPriced analysis.now facts.now text.now) }
{
    match certificate_in(alloc, text) {
        Ok(certificate) => check_priced(alloc, analysis, facts, &certificate),
        Err(refusal) => Err(NotHeld::Refused(refusal)),
    }
}

/// Checks the certificate of a text, of whatever version, by facts.
fn check_text_with(
    alloc: Global,
    analysis: &Analysis,
    facts: &Facts,
    text: &[u8],
) -> Result<Held, NotHeld>
    requires waits { (analysis.now.timing.read ≤ 63) × (analysis.now.timing.write ≤ 63) }
    requires sizes { 0 < analysis.now.timing.block_words }
    ensures held { IfOk result (IsHeldInBoth analysis.now facts.now text.now) }
    ensures refused { IfErr result (IsUnheldInBoth analysis.now facts.now text.now) }
{
    if is_priced(text) {
        return check_priced_text(alloc, analysis, facts, text);
    }
    match check_text(alloc, analysis, text) {
        Ok(held) => Ok(held),
        Err(refusal) => Err(NotHeld::Refused(refusal)),
    }
}

/// The same, by the facts of a text.
fn check_text_by(
    alloc: Global,
    analysis: &Analysis,
    facts: &[u8],
    text: &[u8],
) -> Result<Held, NotHeld>
    requires waits { (analysis.now.timing.read ≤ 63) × (analysis.now.timing.write ≤ 63) }
    requires sizes { 0 < analysis.now.timing.block_words }
    requires short { length facts.now ≤ longest_file }
    ensures held { IfOk result (IsHeldByTexts analysis.now facts.now text.now) }
    ensures refused { IfErr result (IsUnheldByTexts analysis.now facts.now text.now) }
{
    match facts_of(alloc, &analysis.flow, facts) {
        Ok(given) => check_text_with(alloc, analysis, &given, text),
        Err(refusal) => Err(NotHeld::NoFacts(refusal)),
    }
}

/// Checks the certificate of a text against a program, by the settings of a machine, the text of the bounds of loops and the text of
/// facts. Certificates of versions 1 and 2 are checked as without facts.
///
/// # Errors
///
/// What refuses the texts first, in this order: the codes, which fit the method cache, the bounds, the facts, the certificate, its
/// conditions; of these a price of which no fact is given goes before all others.
pub fn check_program_with(
    alloc: Global,
    program: &Verified,
    settings: &Settings,
    bounds: &[u8],
    facts: &[u8],
    certificate: &[u8],
) -> Result<Held, NotHeld>
    requires settings { AreSettings settings.now }
    requires short { length bounds.now ≤ longest_file }
    requires short_facts { length facts.now ≤ longest_file }
    ensures held { IfOk result (IsHeldByFacts program.now settings.now bounds.now facts.now certificate.now) }
    ensures refused { IfErr result (IsNotHeldWith program.now settings.now bounds.now facts.now certificate.now) }
{
    match analysis_of(alloc, program, settings, bounds) {
        Ok(analysis) => check_text_by(alloc, &analysis, facts, certificate),
        Err(fault) => Err(NotHeld::Refused(CheckRefusal::NoAnalysis(fault))),
    }
}

/// The refusal of the certificate of version 3 of a text where the program lacks all code.
fn missing_priced(alloc: Global, text: &[u8]) -> CheckRefusal
    requires { SaysPriced (text_lines text.now) }
    ensures { IsBarePricedRefusal text.now result }
{
    match certificate_in(alloc, text) {
        Ok(certificate) => {
            let method = first_method(certificate.plain());
            match number_text(alloc, method) {
                Ok(name) => CheckRefusal::Fails(CheckFault::Missing(method), name),
                Err(_) => CheckRefusal::NoMemory,
            }
        }
        Err(refusal) => refusal,
    }
}

/// Why no certificate is held where the image is a bare one, which has no classes: what refuses the bounds, the facts or the
/// certificate, or else the first method that the image lacks.
pub fn check_bare_with(alloc: Global, bounds: &[u8], facts: &[u8], certificate: &[u8]) -> NotHeld
    requires short { length bounds.now ≤ longest_file }
    requires short_facts { length facts.now ≤ longest_file }
    ensures { IsBareNotHeldWith bounds.now facts.now certificate.now result }
{
    if let Err(fault) = bounds_in(alloc, bounds) {
        return NotHeld::Refused(CheckRefusal::NoAnalysis(fault));
    }
    if let Err(refusal) = text_refusal(alloc, facts) {
        return NotHeld::NoFacts(refusal);
    }
    if is_priced(certificate) {
        NotHeld::Refused(missing_priced(alloc, certificate))
    } else {
        NotHeld::Refused(missing(alloc, certificate))
    }
}
