//! A certificate, checked against a program and the bounds of its loops.
ghost use Rattle.std.specs.Prelude.{◌≡◌, ◌≤◌, ◌<◌, length, IfOk, IfErr};
ghost use Rattle.base.specs.Sizes.{longest_file};
ghost use Rattle.ascii_text.specs.Line.{lines_of as text_lines};
ghost use Rattle.command_line.specs.Range.{AreSettings};
ghost use Rattle.certificates.specs.Texts.{AreLinesOf};
ghost use Rattle.analysis_commands.specs.Answers.{IsTextFault, IsHeldInText, IsRefusedInText, IsBareTextRefusal};
ghost use Rattle.analysis_commands.specs.Checking.{first_method, IsHeld, IsCheckRefusal, IsBareRefusal};

use crate::analysis::{Analysis, analysis_of, bounds_in};
use crate::conditions::check_certificate;
use crate::names::number_text;
use answer_lines::{AnalysisFault, Held};
use bound_rules::CheckFault;
use bytecode_verifier::Verified;
use certificates::{Cert, CertFault, read_cert};
use command_line::Settings;
use std::alloc::Global;

/// Why no certificate is held.
#[derive(Drop)]
pub enum CheckRefusal {
    /// There is no analysis.
    NoAnalysis(AnalysisFault),
    /// With the line of this number, counted from 1, no certificate begins.
    BadCert(u64),
    /// The first condition that fails, and the name of the method of which it speaks, or `#` and its number.
    Fails(CheckFault, Vec<u8>),
    /// There was no memory.
    NoMemory,
}

/// The certificate that a text gives.
fn certificate_in(alloc: Global, text: &[u8]) -> Result<Cert, CheckRefusal>
    ensures read { IfOk result (AreLinesOf (text_lines text.now)) }
    ensures fault { IfErr result (IsTextFault text.now) }
{
    match read_cert(alloc, text) {
        Ok(certificate) => Ok(certificate),
        Err(CertFault::Line(line)) => Err(CheckRefusal::BadCert(line)),
        Err(CertFault::NoMemory) => Err(CheckRefusal::NoMemory),
    }
}

/// Checks the certificate that a text gives.
pub(crate) fn check_text(
    alloc: Global,
    analysis: &Analysis,
    text: &[u8],
) -> Result<Held, CheckRefusal>
    requires waits { (analysis.now.timing.read ≤ 63) × (analysis.now.timing.write ≤ 63) }
    requires sizes { 0 < analysis.now.timing.block_words }
    ensures held { IfOk result (IsHeldInText analysis.now text.now) }
    ensures refused { IfErr result (IsRefusedInText analysis.now text.now) }
{
    match certificate_in(alloc, text) {
        Ok(certificate) => check_certificate(alloc, analysis, &certificate),
        Err(refusal) => Err(refusal),
    }
}

/// Checks the certificate of a text against a program, by the settings of a machine and the text of the bounds of loops.
///
/// # Errors
///
/// What refuses the texts first, in this order: the codes, which fit the method cache, the bounds, the certificate, its conditions.
pub fn check_program(
    alloc: Global,
    program: &Verified,
    settings: &Settings,
    bounds: &[u8],
    certificate: &[u8],
) -> Result<Held, CheckRefusal>
    requires settings { AreSettings settings.now }
    requires short { length bounds.now ≤ longest_file }
    ensures held { IfOk result (IsHeld program.now settings.now bounds.now certificate.now) }
    ensures refused { IfErr result (IsCheckRefusal program.now settings.now bounds.now certificate.now) }
{
    match analysis_of(alloc, program, settings, bounds) {
        Ok(analysis) => check_text(alloc, &analysis, certificate),
        Err(fault) => Err(CheckRefusal::NoAnalysis(fault)),
    }
}

/// The method of the first section, or else the root.
pub(crate) fn first_method(certificate: &Cert) -> u32
    ensures { result ≡ first_method certificate.now }
{
    match certificate.sections() {
        [section, ..] => section.method,
        [] => certificate.root(),
    }
}

/// The refusal of the certificate of a text where the program lacks all code.
pub(crate) fn missing(alloc: Global, text: &[u8]) -> CheckRefusal
    ensures { IsBareTextRefusal text.now result }
{
    match certificate_in(alloc, text) {
        Ok(certificate) => {
            let method = first_method(&certificate);
            match number_text(alloc, method) {
                Ok(name) => CheckRefusal::Fails(CheckFault::Missing(method), name),
                Err(_) => CheckRefusal::NoMemory,
            }
        }
        Err(refusal) => refusal,
    }
}

/// Why no certificate is held where the image is a bare one, which has no classes: what refuses the bounds, or else the certificate,
/// or else the first method that the image lacks.
pub fn check_bare(alloc: Global, bounds: &[u8], certificate: &[u8]) -> CheckRefusal
    requires { length bounds.now ≤ longest_file }
    ensures { IsBareRefusal bounds.now certificate.now result }
{
    match bounds_in(alloc, bounds) {
        Ok(_) => missing(alloc, certificate),
        Err(fault) => CheckRefusal::NoAnalysis(fault),
    }
}
