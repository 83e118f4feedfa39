//! The bound of a method of a program, by the bounds of its loops.
ghost use Rattle.std.specs.Prelude.{◌≡◌, ◌≤◌, ◌<◌, length, IfOk, IfErr};
ghost use Rattle.base.specs.Sizes.{longest_file};
ghost use Rattle.command_line.specs.Range.{AreSettings};
ghost use Rattle.bound_causes.specs.Naming.{IsNamedBy};
ghost use Rattle.analysis_commands.specs.Bounding.{IsCertText, IsBoundNumber, IsNotBounded, IsBareNotBounded};
ghost use Rattle.analysis_commands.specs.BoundAnswers.{IsOfProgram, IsBoundText, IsBoundNumberOf, IsCauseOf, IsNotBoundedBy};

use crate::analysis::{Analysis, analysis_of, bounds_in};
use crate::certifying::{certificate_of, certificate_text};
use crate::subjects::{cause_of, subject_of};
use answer_lines::{AnalysisFault, BoundCause};
use bound_rules::BoundRefusal;
use bytecode_verifier::Verified;
use command_line::Settings;
use std::alloc::Global;

/// Why no bound of a method is given.
#[derive(Drop)]
pub enum NotBounded {
    /// There is no analysis.
    NoAnalysis(AnalysisFault),
    /// The cause, and what its line names: each method of the cycle, behind a space, or else the method, and where it is irreducible
    /// its nodes, each behind a space.
    Forbidden(BoundCause, Vec<u8>),
    /// There was no memory.
    NoMemory,
}

/// The answer where this forbids a bound of the method that has this name.
pub fn not_bounded(
    alloc: Global,
    analysis: &Analysis,
    name: &[u8],
    refusal: &BoundRefusal,
) -> NotBounded
    requires { IsCauseOf analysis.now (IsNamedBy analysis.now.flow name.now) refusal.now }
    ensures { IsNotBoundedBy analysis.now name.now result }
{
    let Some(cause) = cause_of(refusal) else {
        return NotBounded::NoMemory;
    };
    match subject_of(alloc, &analysis.flow, refusal) {
        Ok(subject) => NotBounded::Forbidden(cause, subject),
        Err(_) => NotBounded::NoMemory,
    }
}

/// The text of the certificate of the method of this name.
fn bound_text(alloc: Global, analysis: &Analysis, name: &[u8]) -> Result<Vec<u8>, NotBounded>
    requires program { IsOfProgram analysis.now }
    requires waits { (analysis.now.timing.read ≤ 63) × (analysis.now.timing.write ≤ 63) }
    requires sizes { 0 < analysis.now.timing.block_words }
    ensures text { IfOk result (λ text. IsBoundText analysis.now name.now text.items) }
    ensures refused { IfErr result (IsNotBoundedBy analysis.now name.now) }
{
    match certificate_of(alloc, analysis, name) {
        Ok(certificate) => certificate_text(alloc, &certificate),
        Err(refusal) => Err(not_bounded(alloc, analysis, name, &refusal)),
    }
}

/// The text of a certificate of the bound of the method that has this name, by the settings of a machine and the text of the bounds
/// of loops. A method's name is its class's name, a dot, its own name and its descriptor.
///
/// # Errors
///
/// What refuses the texts first, in this order: the codes, which fit the method cache, the bounds. Then what forbids a bound: no method
/// has the name, recursion, a loop with several entries, one without a bound, a number past 64 bits.
pub fn bound_program(
    alloc: Global,
    program: &Verified,
    settings: &Settings,
    name: &[u8],
    bounds: &[u8],
) -> Result<Vec<u8>, NotBounded>
    requires settings { AreSettings settings.now }
    requires short { length bounds.now ≤ longest_file }
    ensures bound { IfOk result (λ text. IsCertText program.now settings.now bounds.now name.now text.items) }
    ensures refused { IfErr result (IsNotBounded program.now settings.now bounds.now name.now) }
{
    match analysis_of(alloc, program, settings, bounds) {
        Ok(analysis) => bound_text(alloc, &analysis, name),
        Err(fault) => Err(NotBounded::NoAnalysis(fault)),
    }
}

/// The bound of the method of this name.
fn number_of(alloc: Global, analysis: &Analysis, name: &[u8]) -> Result<Option<u64>, NotBounded>
    requires program { IsOfProgram analysis.now }
    requires waits { (analysis.now.timing.read ≤ 63) × (analysis.now.timing.write ≤ 63) }
    requires sizes { 0 < analysis.now.timing.block_words }
    ensures bound { IfOk result (IsBoundNumberOf analysis.now name.now) }
    ensures refused { IfErr result (IsNotBoundedBy analysis.now name.now) }
{
    match certificate_of(alloc, analysis, name) {
        Ok(certificate) => Ok(certificate.bound()),
        Err(refusal) => Err(not_bounded(alloc, analysis, name, &refusal)),
    }
}

/// The bound alone of the method that has this name, in cycles, or `None` where the method never ends.
///
/// # Errors
///
/// As [`bound_program`].
pub fn bound_number(
    alloc: Global,
    program: &Verified,
    settings: &Settings,
    name: &[u8],
    bounds: &[u8],
) -> Result<Option<u64>, NotBounded>
    requires settings { AreSettings settings.now }
    requires short { length bounds.now ≤ longest_file }
    ensures bound { IfOk result (IsBoundNumber program.now settings.now bounds.now name.now) }
    ensures refused { IfErr result (IsNotBounded program.now settings.now bounds.now name.now) }
{
    match analysis_of(alloc, program, settings, bounds) {
        Ok(analysis) => number_of(alloc, &analysis, name),
        Err(fault) => Err(NotBounded::NoAnalysis(fault)),
    }
}

/// Why no bound is given where the image is a bare one, which has no classes: what refuses the bounds, or else that no method has the
/// name.
pub fn bound_bare(alloc: Global, bounds: &[u8]) -> NotBounded
    requires { length bounds.now ≤ longest_file }
    ensures { IsBareNotBounded bounds.now result }
{
    match bounds_in(alloc, bounds) {
        Ok(_) => NotBounded::Forbidden(BoundCause::NoMethod, Vec::new(alloc)),
        Err(fault) => NotBounded::NoAnalysis(fault),
    }
}
