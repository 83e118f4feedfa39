//! The table, method by method.
ghost use Rattle.std.specs.Prelude.{◌≡◌, ◌+◌, ◌<◌, length, map, IfOk, OnOk};
ghost use Rattle.std.specs.List.Sorted.{IsStrictlyIncreasing};
ghost use Rattle.method_flow.specs.Flow.{IsFlowOf, IsCodedOf};
ghost use Rattle.code_scan.specs.Lines.{ArePushed};
ghost use Rattle.code_scan.specs.Scans.{IsScanOf};
ghost use Rattle.program_tables.specs.Numbers.{methods_by_number};
ghost use Rattle.program_tables.specs.Resolved.{resolved};
ghost use Rattle.memory_rules.specs.Stack.{method_words};
ghost use Rattle.memory_rules.specs.Sites.{AreNeedsOf, AreSitesOf};
ghost use Rattle.program_sites.specs.Made.Lines.{AreLinePlaces, AreLinesOf, ArePushedAt, AreSitesAt, AreSitesIn, IsToldBy, IsToldOrBy};
ghost use Rattle.program_sites.specs.Made.Lines.{with_pushed, with_site};

use super::making::{MadeWords, made_at, pushed_at};
use base::NoMemory;
use code_lines::laws::{lines_are_read, lines_follow_one_another};
use code_scan::{CodeScan, PushedInt};
use memory_rules::{Makes, MethodSites, Site, Sites};
use method_flow::{FlowMethod, FlowProgram};
use opcodes::starts;
use program_tables::laws::methods_stand_by_number;
use resolved_program::Program;
use std::alloc::Global;

/// The places at which the lines of a method begin.
fn line_places(alloc: Global, method: &FlowMethod) -> Result<Vec<u32>, NoMemory>
    ensures { IfOk result (λ starts. AreLinesOf method.now starts.items) }
{
    opcodes::laws::starts_follow_one_another();
    lines_are_read();
    starts(alloc, method.code())
}

/// Puts an int that is pushed at a place behind the others, where there is one.
fn add_pushed(pushed: &mut Vec<PushedInt>, place: u32, value: Option<i32>) -> Result<(), NoMemory>
    ensures { OnOk result (pushed.new.items ≡ with_pushed pushed.old.items place value) }
{
    if let Some(value) = value {
        pushed.push(PushedInt { place, value })?;
    }
    Ok(())
}

/// Puts what is made at a place behind the others, where anything is.
fn add_site(sites: &mut Vec<Site>, place: u32, makes: Option<Makes>) -> Result<(), NoMemory>
    ensures { OnOk result (sites.new.items ≡ with_site sites.old.items place makes) }
{
    if let Some(makes) = makes {
        sites.push(Site { place, makes })?;
    }
    Ok(())
}

/// The ints that are pushed at these places of the method `m`.
fn pushed_ints(
    alloc: Global,
    program: &Program,
    m: u32,
    places: &[u32],
) -> Result<Vec<PushedInt>, NoMemory>
    requires method { m < length (methods_by_number program.now) }
    requires places { AreLinePlaces (resolved program.now) m places.now }
    ensures { IfOk result (λ v. ArePushedAt (resolved program.now) m places.now v.items) }
{
    lines_follow_one_another();
    let mut pushed = Vec::new(alloc);
    for place in places {
        add_pushed(&mut pushed, *place, pushed_at(program, m, *place))?;
    }
    Ok(pushed)
}

/// What an instruction at a place makes, with the length of an array where it is a constant.
fn with_constant(made: MadeWords, place: u32, scan: &CodeScan, pushed: &[PushedInt]) -> Makes
    requires { IsStrictlyIncreasing (map (λ x. x.place) pushed.now) }
    ensures { IsToldBy scan.now pushed.now place made result }
{
    match made {
        MadeWords::Object(words) => Makes::Object(words),
        MadeWords::Array(element) => Makes::Array {
            element,
            constant: scan.pushed_before(place, pushed),
        },
    }
}

/// The same where anything is made.
fn told(made: Option<MadeWords>, place: u32, scan: &CodeScan, pushed: &[PushedInt]) -> Option<Makes>
    requires { IsStrictlyIncreasing (map (λ x. x.place) pushed.now) }
    ensures { IsToldOrBy scan.now pushed.now place made result }
{
    match made {
        Some(made) => Some(with_constant(made, place, scan, pushed)),
        None => None,
    }
}

/// What is made at these places of the method `m`.
fn sites_at(
    alloc: Global,
    program: &Program,
    m: u32,
    places: &[u32],
    scan: &CodeScan,
    pushed: &[PushedInt],
) -> Result<Vec<Site>, NoMemory>
    requires method { m < length (methods_by_number program.now) }
    requires places { AreLinePlaces (resolved program.now) m places.now }
    requires scan { IsScanOf (resolved program.now) m scan.now }
    requires pushed { ArePushed (resolved program.now) m pushed.now }
    ensures { IfOk result (λ v. AreSitesAt (resolved program.now) m places.now v.items) }
{
    lines_follow_one_another();
    let mut sites = Vec::new(alloc);
    for place in places {
        let makes = told(made_at(program, m, *place), *place, scan, pushed);
        add_site(&mut sites, *place, makes)?;
    }
    Ok(sites)
}

/// The words of a frame with room for so many words of local variables and of operands.
fn body_words(max_locals: u16, max_stack: u16) -> u32
    ensures { result ≡ max_locals + 5 + max_stack }
{
    u32::from(max_locals) + 5 + u32::from(max_stack)
}

/// The words of a frame of the method `m`, which has code.
fn frame_words(program: &Program, m: u32) -> u32
    requires { m < length (methods_by_number program.now) }
    ensures { result ≡ method_words (resolved program.now) m }
{
    methods_stand_by_number();
    match program.code(m) {
        Some(code) => body_words(code.max_locals, code.max_stack),
        None => 0,
    }
}

/// The instructions at these places of the method `m` that make objects.
fn sites_by(
    alloc: Global,
    program: &Program,
    m: u32,
    method: &FlowMethod,
    places: &[u32],
) -> Result<Vec<Site>, NoMemory>
    requires number { m < length (methods_by_number program.now) }
    requires method { IsCodedOf (resolved program.now) m method.now }
    requires places { AreLinePlaces (resolved program.now) m places.now }
    ensures { IfOk result (λ v. AreSitesAt (resolved program.now) m places.now v.items) }
{
    let scan = CodeScan::new(alloc, method)?;
    let pushed = pushed_ints(alloc, program, m, places)?;
    sites_at(alloc, program, m, places, &scan, &pushed)
}

/// The instructions of the method `m` that make objects.
fn sites_in(
    alloc: Global,
    program: &Program,
    m: u32,
    method: &FlowMethod,
) -> Result<Vec<Site>, NoMemory>
    requires number { m < length (methods_by_number program.now) }
    requires method { IsCodedOf (resolved program.now) m method.now }
    ensures { IfOk result (λ v. AreSitesIn (resolved program.now) m v.items) }
{
    let places = line_places(alloc, method)?;
    sites_by(alloc, program, m, method, &places)
}

/// The words of a frame of the method `m`, and its instructions that make objects.
fn needs_of(
    alloc: Global,
    program: &Program,
    m: u32,
    method: &FlowMethod,
) -> Result<MethodSites, NoMemory>
    requires number { m < length (methods_by_number program.now) }
    requires method { IsCodedOf (resolved program.now) m method.now }
    ensures { IfOk result (AreNeedsOf (resolved program.now) m) }
{
    let sites = sites_in(alloc, program, m, method)?;
    Ok(MethodSites::new(frame_words(program, m), sites))
}

/// The table of a resolved program, of which this is the flow. It has just the methods with code.
pub fn sites_of(alloc: Global, program: &Program, flow: &FlowProgram) -> Result<Sites, NoMemory>
    requires { IsFlowOf (resolved program.now) flow.now }
    ensures sites { IfOk result (AreSitesOf (resolved program.now)) }
    ensures long { IfOk result (λ s. length s ≡ length flow.now.methods) }
{
    methods_stand_by_number();
    let mut methods = Vec::new(alloc);
    for m in 0..flow.method_count() {
        methods.push(needs_of(alloc, program, m, flow.method(m))?)?;
    }
    Ok(Sites::new(methods))
}
