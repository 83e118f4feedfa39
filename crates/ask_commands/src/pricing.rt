//! Bounding a method of an image, and checking a certificate, by the bounds of its loops and by facts.
ghost use Rattle.std.specs.Prelude.{◌≡◌, ◌≤◌, length};
ghost use Rattle.base.specs.Sizes.{longest_file};
ghost use Rattle.command_line.specs.Range.{AreSettings};
ghost use Rattle.ask_commands.specs.Pricing.{facts_ending, unbounded_ending, unheld_ending, AnswersBoundWith, BoundsBareWith, ChecksWith, ChecksBareWith};

use crate::bounding::cause_ending;
use crate::checking::refusal_ending;
use analysis_commands::{
    FactsRefusal, NotHeld, NotPriced, bound_bare_with, bound_program_with, check_bare_with,
    check_program_with,
};
use command_line::Settings;
use endings::fitting::too_long_ending;
use endings::outcome::{Answer, Ending, Refusal};
use jop_core::Bare;
use jopizer::Linked;
use std::alloc::Global;

/// The ending that says why a text gives no facts.
fn facts_ending(refusal: FactsRefusal) -> Ending
    ensures { result ≡ facts_ending refusal }
{
    match refusal {
        FactsRefusal::BadFacts(line) => Ending::Refused(Refusal::BadFacts(line)),
        FactsRefusal::TwiceFact(line) => Ending::Refused(Refusal::TwiceFact(line)),
        FactsRefusal::NoFact(line) => Ending::Refused(Refusal::NoFact(line)),
        FactsRefusal::NoMemory => Ending::NoMemory,
    }
}

/// The ending that says why no bound is given.
fn unbounded_ending(settings: &Settings, cause: NotPriced) -> Ending
    ensures { result ≡ unbounded_ending settings.now cause }
{
    match cause {
        NotPriced::NoFacts(refusal) => facts_ending(refusal),
        NotPriced::NotBound(cause) => cause_ending(settings, cause),
    }
}

/// The ending that says why nothing is held.
fn unheld_ending(settings: &Settings, refusal: NotHeld) -> Ending
    ensures { result ≡ unheld_ending settings.now refusal }
{
    match refusal {
        NotHeld::NoFacts(refusal) => facts_ending(refusal),
        NotHeld::NoPrice(method, node, name) => Ending::NotPriced(method, node, name),
        NotHeld::Refused(refusal) => refusal_ending(settings, refusal),
    }
}

/// The text of a certificate of the method of this name of what was linked, or why no bound is given.
pub fn bound_linked_with(
    alloc: Global,
    linked: &Linked,
    settings: &Settings,
    name: &[u8],
    bounds: &[u8],
    facts: &[u8],
) -> Answer
    requires settings { AreSettings settings.now }
    requires short { length bounds.now ≤ longest_file }
    requires short_facts { length facts.now ≤ longest_file }
    ensures { AnswersBoundWith linked.now.classes settings.now bounds.now facts.now name.now result }
{
    // The law is for the proof.
    fact_sound::laws::prices_are_sound();
    match bound_program_with(alloc, linked.program(), settings, name, bounds, facts) {
        Ok(text) => Answer::Text(text),
        Err(cause) => Answer::Ends(unbounded_ending(settings, cause)),
    }
}

/// How the bounding of a method of a bare image ends.
pub fn bound_bare_image_with(
    alloc: Global,
    image: &Bare,
    settings: &Settings,
    bounds: &[u8],
    facts: &[u8],
) -> Ending
    requires settings { AreSettings settings.now }
    requires short { length bounds.now ≤ longest_file }
    requires short_facts { length facts.now ≤ longest_file }
    ensures { BoundsBareWith settings.now image.now bounds.now facts.now result }
{
    match too_long_ending(image, settings) {
        Some(ending) => ending,
        None => unbounded_ending(settings, bound_bare_with(alloc, bounds, facts)),
    }
}

/// Checks the certificate of a text against what was linked.
pub fn check_linked_with(
    alloc: Global,
    linked: &Linked,
    settings: &Settings,
    bounds: &[u8],
    facts: &[u8],
    certificate: &[u8],
) -> Ending
    requires settings { AreSettings settings.now }
    requires short { length bounds.now ≤ longest_file }
    requires short_facts { length facts.now ≤ longest_file }
    ensures { ChecksWith linked.now.classes settings.now bounds.now facts.now certificate.now result }
{
    // The laws are for the proof.
    fact_sound::laws::prices_are_sound();
    bound_laws::soundness::certificates_are_sound();
    match check_program_with(
        alloc,
        linked.program(),
        settings,
        bounds,
        facts,
        certificate,
    ) {
        Ok(held) => Ending::Holds(held),
        Err(refusal) => unheld_ending(settings, refusal),
    }
}

/// Checks the certificate of a text against a bare image.
pub fn check_bare_image_with(
    alloc: Global,
    image: &Bare,
    settings: &Settings,
    bounds: &[u8],
    facts: &[u8],
    certificate: &[u8],
) -> Ending
    requires settings { AreSettings settings.now }
    requires short { length bounds.now ≤ longest_file }
    requires short_facts { length facts.now ≤ longest_file }
    ensures { ChecksBareWith settings.now image.now bounds.now facts.now certificate.now result }
{
    match too_long_ending(image, settings) {
        Some(ending) => ending,
        None => unheld_ending(settings, check_bare_with(alloc, bounds, facts, certificate)),
    }
}
