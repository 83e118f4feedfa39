//! The check of all sections of a certificate with prices, one behind the other.
ghost use Rattle.std.specs.Prelude.{◌≡◌, All, IfErr, IfOk, OnOk, length};
ghost use Rattle.cert_checker.specs.Section.{IsUsual};
ghost use Rattle.fact_rules.specs.Conditions.{sections_of};
ghost use Rattle.fact_checker.specs.Known.{pricing};
ghost use Rattle.fact_checker.specs.Section.{AddsPriced, AllMeetPriced, PricedFailsFor, SomeFailPriced};

use super::known::{KnownPrices, SectionPrices};
use super::section::check_section;
use bound_rules::CheckFault;
use cert_checker::{Task, Values};
use std::alloc::Global;

/// Checks a section behind those whose values these are, and adds its value.
fn add_section(
    alloc: Global,
    task: &Task<'_>,
    known: &KnownPrices<'_>,
    values: &mut Values,
    s: &SectionPrices<'_>,
) -> Result<(), CheckFault>
    requires values { values.old.methods ≡ length task.now.flow.methods }
    requires table { known.now.methods ≡ length task.now.flow.methods }
    requires usual { IsUsual s.now.plain.section }
    ensures met { OnOk result (AddsPriced task.now (pricing known.now) s.now values.old values.new) }
    ensures fails { IfErr result (PricedFailsFor task.now (pricing known.now) values.old.valued s.now) }
{
    let value = check_section(alloc, task, known, values, s)?;
    if values.add(s.plain, value).is_err() {
        return Err(CheckFault::NoMemory);
    }
    Ok(())
}

/// Checks the sections one behind the other: the values of all, or the first condition of the first section that fails.
pub fn check_sections(
    alloc: Global,
    task: &Task<'_>,
    known: &KnownPrices<'_>,
) -> Result<Values, CheckFault>
    requires table { known.now.methods ≡ length task.now.flow.methods }
    requires usual { All (λ s. IsUsual s.section) known.now.certificate.plain.sections }
    ensures long { IfOk result (λ values. values.methods ≡ length task.now.flow.methods) }
    ensures met { IfOk result (λ values. AllMeetPriced task.now (pricing known.now) (sections_of known.now.certificate) values.valued) }
    ensures fails { IfErr result (SomeFailPriced task.now (pricing known.now) (sections_of known.now.certificate)) }
{
    fact_rules::laws::one_more_meets_priced();
    let Ok(mut values) = Values::new(alloc, task.flow().method_count()) else {
        return Err(CheckFault::NoMemory);
    };
    for i in 0..known.section_count() {
        add_section(alloc, task, known, &mut values, &known.section(i))?;
    }
    Ok(values)
}
