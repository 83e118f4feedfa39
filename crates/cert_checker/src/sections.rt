//! The check of all sections of a certificate, one behind the other.
ghost use Rattle.std.specs.Prelude.{◌≡◌, All, IfErr, IfOk, OnOk, length};
ghost use Rattle.cert_checker.specs.Section.{AddsSection, AllMeetFor, FailsFor, IsUsual, SomeFailFor};

use super::section::check_section_of;
use super::task::Task;
use super::values::Values;
use bound_rules::CheckFault;
use certificates::CertSection;
use std::alloc::Global;

/// Checks a section behind those whose values these are, and adds its value.
fn add_section(
    alloc: Global,
    task: &Task<'_>,
    values: &mut Values,
    s: &CertSection,
) -> Result<(), CheckFault>
    requires values { values.old.methods ≡ length task.now.flow.methods }
    requires usual { IsUsual s.now.section }
    ensures met { OnOk result (AddsSection task.now s.now values.old values.new) }
    ensures fails { IfErr result (FailsFor task.now values.old.valued s.now) }
{
    let value = check_section_of(alloc, task, values, s)?;
    if values.add(s, value).is_err() {
        return Err(CheckFault::NoMemory);
    }
    Ok(())
}

/// Checks the sections one behind the other: the values of all, or the first condition of the first section that fails.
pub fn check_sections(
    alloc: Global,
    task: &Task<'_>,
    sections: &[CertSection],
) -> Result<Values, CheckFault>
    requires usual { All (λ s. IsUsual s.section) sections.now }
    ensures long { IfOk result (λ values. values.methods ≡ length task.now.flow.methods) }
    ensures met { IfOk result (λ values. AllMeetFor task.now sections.now values.valued) }
    ensures fails { IfErr result (SomeFailFor task.now sections.now) }
{
    bound_rules::laws::one_more_meets();
    let Ok(mut values) = Values::new(alloc, task.flow().method_count()) else {
        return Err(CheckFault::NoMemory);
    };
    for s in sections {
        add_section(alloc, task, &mut values, s)?;
    }
    Ok(values)
}
