//! What the instructions of a method do is read off its code.

ghost use Rattle.std.specs.Prelude.{◌≡◌, ℕ, map, IfOk};
ghost use Rattle.bytecode_model.specs.Program.{Program};
ghost use Rattle.method_flow.specs.Flow.{IsCodedOf};
ghost use Rattle.loop_acts.specs.Rules.{Given, rules_by};
ghost use Rattle.loop_acts.specs.Acts.{AreActs};
ghost use Rattle.loop_acts.specs.Reading.{AreIntsBy, AreLinesOf, act_if, act_of, limit_at, limit_before, line_at, loaded_before, pushed_before};
ghost use Rattle.loop_acts.specs.Reading.{stored_at, test_behind, test_by, test_of_ints, test_of_zero, told_before, value_before};

use crate::effects::{Act, Test};
use base::NoMemory;
use code_scan::{CodeScan, Comparison, IntLine, IntRow, int_line};
use loop_rules::MethodSites;
use loop_rules::further::{KnownInt, known_at};
use method_flow::FlowMethod;
use opcodes::starts;
use std::alloc::Global;

/// What is known of the ints that lines of a method push: constants, each by one line; or by the places behind them what lines push.
#[derive(Clone, Copy)]
pub enum MethodInts<'a> {
    OfSites(&'a MethodSites),
    OfTable(&'a [Option<KnownInt>]),
}

/// The instructions of a code by place, where one begins there.
fn lines_by_place(alloc: Global, method: &FlowMethod) -> Result<Vec<Option<IntLine>>, NoMemory>
    ensures { IfOk result (λ lines. (P : Program) (m : ℕ) → IsCodedOf P m method.now → AreLinesOf P m lines.items) }
{
    opcodes::laws::starts_follow_one_another();
    code_lines::laws::lines_are_read();
    let code = method.code();
    let mut lines = vec![in alloc; None; code.len()]?;
    let starts = starts(alloc, code)?;
    for place in &starts {
        lines[*place as usize] = Some(int_line(method, *place));
    }
    Ok(lines)
}

/// The instruction at a place.
fn line_at(lines: &[Option<IntLine>], place: u32) -> Option<IntLine>
    ensures { result ≡ line_at lines.now place }
{
    let index = place as usize;
    if index < lines.len() {
        lines[index]
    } else {
        None
    }
}

/// The local variable whose int the instruction directly before a place pushes.
fn loaded_before(lines: &[Option<IntLine>], scan: &CodeScan, place: u32) -> Option<u32>
    ensures { result ≡ loaded_before lines.now scan.now place }
{
    match line_at(lines, scan.before(place)?)?.row {
        IntRow::Load(local) => Some(local),
        _ => None,
    }
}

/// The constant that the instruction at a place pushes, of the pool or of a field or its own.
fn limit_at(sites: &MethodSites, place: u32) -> Option<i32>
    ensures { result ≡ limit_at sites.now place }
{
    match sites.pushed(place) {
        Some(value) => Some(value),
        None => sites.field(place),
    }
}

/// The constant that the instruction directly before a place pushes, where nothing names the place.
fn pushed_before(scan: &CodeScan, sites: &MethodSites, place: u32) -> Option<i32>
    ensures { result ≡ pushed_before scan.now sites.now place }
{
    if scan.is_named(place) {
        return None;
    }
    sites.pushed(scan.before(place)?)
}

/// The limit that the instruction directly before a place pushes.
fn told_before(scan: &CodeScan, sites: &MethodSites, place: u32) -> Option<KnownInt>
    ensures { result ≡ told_before scan.now sites.now place }
{
    let from = scan.before(place)?;
    let value = limit_at(sites, from)?;
    Some(KnownInt { from, value })
}

/// The limit that lines directly before a place push, and where they begin.
fn limit_before(scan: &CodeScan, ints: &MethodInts<'_>, place: u32) -> Option<KnownInt>
    ensures { result ≡ limit_before scan.now ints.now place }
{
    match *ints {
        MethodInts::OfSites(sites) => told_before(scan, sites, place),
        MethodInts::OfTable(known) => known_at(known, place),
    }
}

/// The int that lines up to a place push, by a table.
fn value_before(known: &[Option<KnownInt>], place: u32) -> Option<i32>
    ensures { result ≡ value_before known.now place }
{
    let found = known_at(known, place)?;
    Some(found.value)
}

/// The int that the instruction at a place stores, where it is known.
fn stored_at(scan: &CodeScan, ints: &MethodInts<'_>, place: u32) -> Option<i32>
    ensures { result ≡ stored_at scan.now ints.now place }
{
    match *ints {
        MethodInts::OfSites(sites) => pushed_before(scan, sites, place),
        MethodInts::OfTable(known) => value_before(known, place),
    }
}

/// The test of a branch that compares with 0.
fn test_of_zero(
    lines: &[Option<IntLine>],
    scan: &CodeScan,
    line: IntLine,
    taken: Comparison,
    offset: i32,
) -> Option<Test>
    ensures { result ≡ test_of_zero lines.now scan.now line taken offset }
{
    if scan.is_named(line.place) {
        return None;
    }
    let local = loaded_before(lines, scan, line.place)?;
    Some(Test {
        next: line.next,
        local,
        offset,
        taken,
        limit: 0,
    })
}

/// The test of a branch that compares a local variable with a limit, which lines up to the branch push.
fn test_behind(
    lines: &[Option<IntLine>],
    scan: &CodeScan,
    line: IntLine,
    taken: Comparison,
    offset: i32,
    limit: KnownInt,
) -> Option<Test>
    ensures { result ≡ test_behind lines.now scan.now line taken offset limit }
{
    if scan.is_named(limit.from) {
        return None;
    }
    let local = loaded_before(lines, scan, limit.from)?;
    Some(Test {
        next: line.next,
        local,
        offset,
        taken,
        limit: limit.value,
    })
}

/// The test of a branch that compares two ints.
fn test_of_ints(
    lines: &[Option<IntLine>],
    scan: &CodeScan,
    ints: &MethodInts<'_>,
    line: IntLine,
    taken: Comparison,
    offset: i32,
) -> Option<Test>
    ensures { result ≡ test_of_ints lines.now scan.now ints.now line taken offset }
{
    if scan.is_named(line.place) {
        return None;
    }
    let limit = limit_before(scan, ints, line.place)?;
    test_behind(lines, scan, line, taken, offset, limit)
}

/// A test, or nothing of note.
fn test_by(test: Option<Test>) -> Act
    ensures { result ≡ test_by test }
{
    match test {
        Some(test) => Act::Test(test),
        None => Act::Other,
    }
}

/// What an instruction does.
fn act_of(lines: &[Option<IntLine>], scan: &CodeScan, ints: &MethodInts<'_>, line: IntLine) -> Act
    ensures { result ≡ act_of lines.now scan.now ints.now line }
{
    match line.row {
        IntRow::Increment(local, by) => Act::Step(local, by),
        IntRow::Store(local) => Act::Set(local, stored_at(scan, ints, line.place)),
        IntRow::StoreLong(local) => Act::SetLong(local),
        IntRow::StoreReference(local) => Act::SetReference(local),
        IntRow::BranchZero(taken, offset) => test_by(test_of_zero(
            lines, scan, line, taken, offset,
        )),
        IntRow::BranchInts(taken, offset) => {
            test_by(test_of_ints(lines, scan, ints, line, taken, offset))
        }
        _ => Act::Other,
    }
}

/// What the instruction of a place does, if one begins there.
fn act_if(
    lines: &[Option<IntLine>],
    scan: &CodeScan,
    ints: &MethodInts<'_>,
    line: Option<IntLine>,
) -> Act
    ensures { result ≡ act_if lines.now scan.now ints.now line }
{
    match line {
        Some(line) => act_of(lines, scan, ints, line),
        None => Act::Other,
    }
}

/// What these instructions do.
fn acts_by(
    alloc: Global,
    lines: &[Option<IntLine>],
    scan: &CodeScan,
    ints: &MethodInts<'_>,
) -> Result<Vec<Act>, NoMemory>
    ensures { IfOk result (λ acts. acts.items ≡ map (act_if lines.now scan.now ints.now) lines.now) }
{
    let mut acts = Vec::with_capacity(alloc, lines.len())?;
    for line in lines {
        acts.push(act_if(lines, scan, ints, *line))?;
    }
    Ok(acts)
}

/// What the instructions of a method do, by place.
pub fn acts(alloc: Global, method: &FlowMethod, ints: &MethodInts<'_>) -> Result<Vec<Act>, NoMemory>
    ensures { IfOk result (λ acts. (P : Program) (given : Given) (m : ℕ) → IsCodedOf P m method.now → AreIntsBy P m ints.now given
        → AreActs P (rules_by P given) m acts.items) }
{
    code_lines::laws::lines_follow_one_another();
    code_lines::laws::one_stands_before();
    let lines = lines_by_place(alloc, method)?;
    let scan = CodeScan::new(alloc, method)?;
    acts_by(alloc, &lines, &scan, ints)
}
