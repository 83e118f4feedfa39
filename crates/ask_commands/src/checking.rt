//! Checking a certificate against an image and the bounds of its loops.
ghost use Rattle.std.specs.Prelude.{◌≡◌, ◌≤◌, length};
ghost use Rattle.base.specs.Sizes.{longest_file};
ghost use Rattle.command_line.specs.Range.{AreSettings};
ghost use Rattle.ask_commands.specs.Checking.{refusal_ending, Checks, ChecksBare};

use analysis_commands::{CheckRefusal, check_bare, check_program};
use command_line::Settings;
use endings::faults::fault_ending;
use endings::fitting::too_long_ending;
use endings::outcome::{Ending, Refusal};
use jop_core::Bare;
use jopizer::Linked;
use std::alloc::Global;

/// The ending that says why nothing is held.
pub(crate) fn refusal_ending(settings: &Settings, refusal: CheckRefusal) -> Ending
    ensures { result ≡ refusal_ending settings.now refusal }
{
    match refusal {
        CheckRefusal::NoAnalysis(fault) => fault_ending(settings, fault),
        CheckRefusal::BadCert(line) => Ending::Refused(Refusal::BadCert(line)),
        CheckRefusal::Fails(fault, name) => Ending::NotHeld(fault, name),
        CheckRefusal::NoMemory => Ending::NoMemory,
    }
}

/// Checks the certificate of a text against what was linked.
pub fn check_linked(
    alloc: Global,
    linked: &Linked,
    settings: &Settings,
    bounds: &[u8],
    certificate: &[u8],
) -> Ending
    requires settings { AreSettings settings.now }
    requires short { length bounds.now ≤ longest_file }
    ensures { Checks linked.now.classes settings.now bounds.now certificate.now result }
{
    bound_laws::soundness::certificates_are_sound();
    match check_program(alloc, linked.program(), settings, bounds, certificate) {
        Ok(held) => Ending::Holds(held),
        Err(refusal) => refusal_ending(settings, refusal),
    }
}

/// Checks the certificate of a text against a bare image.
pub fn check_bare_image(
    alloc: Global,
    image: &Bare,
    settings: &Settings,
    bounds: &[u8],
    certificate: &[u8],
) -> Ending
    requires settings { AreSettings settings.now }
    requires short { length bounds.now ≤ longest_file }
    ensures { ChecksBare settings.now image.now bounds.now certificate.now result }
{
    match too_long_ending(image, settings) {
        Some(ending) => ending,
        None => refusal_ending(settings, check_bare(alloc, bounds, certificate)),
    }
}
