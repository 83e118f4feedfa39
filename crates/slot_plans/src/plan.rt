//! The plan of a cyclic executive: that the bound of each slot's method keeps the slot's length.
ghost use Rattle.std.specs.Prelude.{◌≡◌, ◌≤◌, ◌<◌, ◌++◌, length, IfOk, IfErr, OnOk, IfSome, MatchOption};
ghost use Rattle.base.specs.Sizes.{longest_file};
ghost use Rattle.command_line.specs.Range.{AreSettings};
ghost use Rattle.slot_table.specs.declared.slot.Slot.{Slot};
ghost use Rattle.analysis_commands.specs.Answers.{table_name};
ghost use Rattle.analysis_commands.specs.BoundAnswers.{IsOfProgram};
ghost use Rattle.slot_plans.specs.Plan.{plan_line, IsPlan, IsNotPlanned};
ghost use Rattle.analysis_commands.specs.ExecutiveAnswers.{IsExecutiveIn};
ghost use Rattle.slot_plans.specs.PlanAnswers.{IsBoundOfMethodIn, IsSlotCause, IsRefusedMethod, IsSlotBoundIn, KeepsLengthIn};
ghost use Rattle.slot_plans.specs.PlanAnswers.{IsSlotRefusedBy, HasSlotLine, IsPlanIn, IsNotPlannedBy};

use analysis_commands::{
    Analysis, analysis_of, cause_of, certificate_by_number, executive_method, slot_method,
    subject_of,
};
use answer_lines::{AnalysisFault, BoundCause, PlanCause};
use ascii_text::put_u64;
use base::NoMemory;
use bound_rules::BoundRefusal;
use bytecode_verifier::Verified;
use command_line::Settings;
use method_flow::FlowProgram;
use slot_table::{Slot, SlotTable};
use std::alloc::Global;

/// Why no plan of a cyclic executive is given.
#[derive(Drop)]
pub enum NotPlanned {
    /// There is no analysis.
    NoAnalysis(AnalysisFault),
    /// The first slot whose length isn't kept, and why. Where no bound of its method is given, what the line names: each method of the
    /// cycle, behind a space, or else the method, and where it is irreducible its nodes, each behind a space.
    Refused(PlanCause, Vec<u8>),
    /// There was no memory.
    NoMemory,
}

/// The answer where this forbids a bound of a slot's method.
fn no_bound(alloc: Global, flow: &FlowProgram, slot: u32, refusal: &BoundRefusal) -> NotPlanned
    ensures { IsSlotCause (table_name flow.now) slot refusal.now result }
{
    let Some(cause) = cause_of(refusal) else {
        return NotPlanned::NoMemory;
    };
    match subject_of(alloc, flow, refusal) {
        Ok(subject) => NotPlanned::Refused(PlanCause::Slot(slot, cause), subject),
        Err(_) => NotPlanned::NoMemory,
    }
}

/// The bound of the method of a slot.
fn bound_of_method(
    alloc: Global,
    analysis: &Analysis,
    slot: u32,
    method: u32,
) -> Result<Option<u64>, NotPlanned>
    requires program { IsOfProgram analysis.now }
    requires known { method < length analysis.now.flow.methods }
    requires waits { (analysis.now.timing.read ≤ 63) × (analysis.now.timing.write ≤ 63) }
    requires sizes { 0 < analysis.now.timing.block_words }
    ensures bound { IfOk result (IsBoundOfMethodIn analysis.now method) }
    ensures refused { IfErr result (IsRefusedMethod analysis.now slot method) }
{
    match certificate_by_number(alloc, analysis, method) {
        Ok(certificate) => Ok(certificate.bound()),
        Err(refusal) => Err(no_bound(alloc, &analysis.flow, slot, &refusal)),
    }
}

/// The bound of a slot.
fn slot_bound(
    alloc: Global,
    analysis: &Analysis,
    executive: Option<u32>,
    slot: u32,
) -> Result<Option<u64>, NotPlanned>
    requires program { IsOfProgram analysis.now }
    requires executive { IsExecutiveIn analysis.now.flow executive }
    requires few { slot < 64 }
    requires waits { (analysis.now.timing.read ≤ 63) × (analysis.now.timing.write ≤ 63) }
    requires sizes { 0 < analysis.now.timing.block_words }
    ensures bound { IfOk result (IsSlotBoundIn analysis.now slot) }
    ensures refused { (s : Slot) → IfErr result (IsSlotRefusedBy analysis.now slot s) }
{
    match slot_method(&analysis.flow, executive, slot) {
        Some(method) => bound_of_method(alloc, analysis, slot, method),
        None => Err(NotPlanned::Refused(
            PlanCause::Slot(slot, BoundCause::NoMethod),
            Vec::new(alloc),
        )),
    }
}

/// A bound that doesn't pass a length.
fn within(bound: Option<u64>, length: u64) -> Option<u64>
    ensures { MatchOption result (IfSome bound (λ n. length < n)) (λ n. (bound ≡ Some n) × (n ≤ length)) }
{
    match bound {
        Some(cycles) if cycles <= length => Some(cycles),
        _ => None,
    }
}

/// The bound of a slot, where it keeps the slot's length.
fn kept_bound(
    alloc: Global,
    analysis: &Analysis,
    executive: Option<u32>,
    slot: u32,
    parts: &Slot,
) -> Result<u64, NotPlanned>
    requires program { IsOfProgram analysis.now }
    requires executive { IsExecutiveIn analysis.now.flow executive }
    requires few { slot < 64 }
    requires waits { (analysis.now.timing.read ≤ 63) × (analysis.now.timing.write ≤ 63) }
    requires sizes { 0 < analysis.now.timing.block_words }
    ensures kept { IfOk result (KeepsLengthIn analysis.now slot parts.now) }
    ensures refused { IfErr result (IsSlotRefusedBy analysis.now slot parts.now) }
{
    let bound = slot_bound(alloc, analysis, executive, slot)?;
    match within(bound, parts.length) {
        Some(bound) => Ok(bound),
        None => Err(NotPlanned::Refused(
            PlanCause::Late {
                slot,
                bound,
                length: parts.length,
            },
            Vec::new(alloc),
        )),
    }
}

/// Appends the line of a slot: `slot I NAME bound=B length=C`.
fn put_plan_line(
    alloc: Global,
    text: &mut Vec<u8>,
    slot: u32,
    parts: &Slot,
    bound: u64,
) -> Result<(), NoMemory>
    ensures { OnOk result (text.new.items ≡ text.old.items ++ plan_line slot parts.now bound) }
{
    text.extend_from_slice(b"slot ")?;
    put_u64(text, slot as u64)?;
    text.push(b' ')?;
    parts.put_name(alloc, text)?;
    text.extend_from_slice(b" bound=")?;
    put_u64(text, bound)?;
    text.extend_from_slice(b" length=")?;
    put_u64(text, parts.length)?;
    Ok(text.push(b'\n')?)
}

/// Appends the line of a slot whose length the bound of its method keeps.
fn put_slot(
    text: &mut Vec<u8>,
    alloc: Global,
    analysis: &Analysis,
    executive: Option<u32>,
    slot: u32,
    parts: &Slot,
) -> Result<(), NotPlanned>
    requires program { IsOfProgram analysis.now }
    requires executive { IsExecutiveIn analysis.now.flow executive }
    requires few { slot < 64 }
    requires waits { (analysis.now.timing.read ≤ 63) × (analysis.now.timing.write ≤ 63) }
    requires sizes { 0 < analysis.now.timing.block_words }
    ensures put { OnOk result (HasSlotLine analysis.now slot parts.now text.old.items text.new.items) }
    ensures refused { IfErr result (IsSlotRefusedBy analysis.now slot parts.now) }
{
    let bound = kept_bound(alloc, analysis, executive, slot, parts)?;
    match put_plan_line(alloc, text, slot, parts, bound) {
        Ok(_) => Ok(()),
        Err(_) => Err(NotPlanned::NoMemory),
    }
}

/// The lines of slots, counted from 0.
fn lines_of(alloc: Global, analysis: &Analysis, slots: &[Slot]) -> Result<Vec<u8>, NotPlanned>
    requires program { IsOfProgram analysis.now }
    requires few { length slots.now ≤ 64 }
    requires waits { (analysis.now.timing.read ≤ 63) × (analysis.now.timing.write ≤ 63) }
    requires sizes { 0 < analysis.now.timing.block_words }
    ensures plan { IfOk result (λ text. IsPlanIn analysis.now slots.now text.items) }
    ensures refused { IfErr result (IsNotPlannedBy analysis.now slots.now) }
{
    let executive = executive_method(&analysis.flow);
    let mut text = Vec::new(alloc);
    for (slot, parts) in slots.iter().enumerate() {
        put_slot(&mut text, alloc, analysis, executive, slot as u32, parts)?;
    }
    Ok(text)
}

/// The plan of a cyclic executive with this table, of a program that was linked with it, by the settings of a machine and the text of
/// the bounds of loops: a line `slot I NAME bound=B length=C` a slot, counted from 0. B is the bound of the slot's method in cycles, and C
/// the slot's length, which isn't less.
///
/// # Errors
///
/// What refuses the texts first, in this order: the codes, which fit the method cache, the bounds. Then the first slot whose length isn't
/// kept: the executive calls no method in its place; a bound of the method is forbidden, for the first cause that does; the bound passes
/// the slot's length, or the method never ends.
pub fn plan_lines(
    alloc: Global,
    program: &Verified,
    settings: &Settings,
    table: &SlotTable,
    bounds: &[u8],
) -> Result<Vec<u8>, NotPlanned>
    requires settings { AreSettings settings.now }
    requires short { length bounds.now ≤ longest_file }
    ensures plan { IfOk result (λ text. IsPlan program.now settings.now bounds.now table.now text.items) }
    ensures refused { IfErr result (IsNotPlanned program.now settings.now bounds.now table.now) }
{
    match analysis_of(alloc, program, settings, bounds) {
        Ok(analysis) => lines_of(alloc, &analysis, table.slots()),
        Err(fault) => Err(NotPlanned::NoAnalysis(fault)),
    }
}
