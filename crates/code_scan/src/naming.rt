//! Which places of a code are named, and where instructions end.

ghost use Rattle.std.specs.Prelude.{◌≡◌, ◌↔◌, ℕ, ◌+◌, ◌<◌, ◌≤◌, true, length, map, All, Contains, IfOk, MatchOption, None, Ok, pos, ◌+ℤ◌, slice_get};
ghost use Rattle.std.specs.Prelude.{slice_index_or, Some};
ghost use Rattle.opcodes.specs.Instruction.{decoded};
ghost use Rattle.opcodes.specs.Start.{IsStart, starts_of};
ghost use Rattle.opcodes.specs.Target.{targets_of};
ghost use Rattle.method_flow.specs.Flow.{IsCoded, IsRangeOf, StaysInCode};
ghost use Rattle.code_scan.specs.Marks.{Marks, mark_at};
ghost use Rattle.code_scan.specs.Naming.{case_places, EndsAt, HandlesAt, IsNamedIn, NamesIn};

use base::NoMemory;
use method_flow::{FlowMethod, HandlerRange};
use opcodes::{Instr, case, decode, target};
use std::alloc::Global;

/// Marks a place; one below 0 is none.
fn mark(place: i64, marks: &mut Vec<bool>)
    requires { (q : ℕ) → place ≡ pos q → q < length marks.old.items }
    ensures { Marks marks.old.items marks.new.items (λ q. place ≡ pos q) }
{
    if let Ok(target) = usize::try_from(place) {
        marks[target] = true;
    }
}

/// The place at an offset from another.
fn place_at(pc: u32, offset: i32) -> i64
    ensures { result ≡ pos pc +ℤ offset }
{
    i64::from(pc) + i64::from(offset)
}

/// The place of a case of a switch.
fn case_place(code: &[u8], pc: u32, instr: &Instr, index: u32) -> i64
    requires is { decoded code.now pc ≡ Ok instr.now }
    requires short { length code.now < 65536 }
    requires one { index < instr.now.count }
    ensures { slice_get (case_places code.now pc instr.now) index ≡ Some result }
{
    let case = case(code, pc, instr, index);
    place_at(pc, case.offset)
}

/// Marks the places of the cases of a switch.
fn mark_cases(code: &[u8], pc: u32, instr: &Instr, marks: &mut Vec<bool>)
    requires is { decoded code.now pc ≡ Ok instr.now }
    requires short { length code.now < 65536 }
    requires inside { (q : ℕ) → Contains (case_places code.now pc instr.now) (pos q) → q < length marks.old.items }
    ensures { Marks marks.old.items marks.new.items (λ q. Contains (case_places code.now pc instr.now) (pos q)) }
{
    for index in 0..instr.count {
        let place = case_place(code, pc, instr, index);
        mark(place, marks);
    }
}

/// Marks the places that an instruction names.
fn mark_targets(code: &[u8], pc: u32, instr: &Instr, marks: &mut Vec<bool>)
    requires is { decoded code.now pc ≡ Ok instr.now }
    requires short { length code.now < 65536 }
    requires inside { (q : ℕ) → Contains (targets_of code.now pc instr.now) (pos q) → q < length marks.old.items }
    ensures { Marks marks.old.items marks.new.items (λ q. Contains (targets_of code.now pc instr.now) (pos q)) }
{
    match target(pc, instr) {
        Some(place) => {
            mark(place, marks);
            mark_cases(code, pc, instr, marks);
        }
        None => mark_cases(code, pc, instr, marks),
    }
}

/// Marks the places that the instruction at a place names.
fn mark_line(code: &[u8], pc: u32, marks: &mut Vec<bool>)
    requires start { IsStart code.now pc }
    requires stays { StaysInCode code.now pc }
    requires short { length code.now < 65536 }
    requires long { length marks.old.items ≡ length code.now }
    ensures { Marks marks.old.items marks.new.items (NamesIn code.now pc) }
{
    opcodes::laws::starts_follow_one_another();
    opcodes::laws::targets_fit_the_kind();
    if let Ok(instr) = decode(code, pc) {
        mark_targets(code, pc, &instr, marks);
    }
}

/// Marks the places that the instructions of a code name.
fn mark_code(code: &[u8], starts: &[u32], marks: &mut Vec<bool>)
    requires starts { starts.now ≡ starts_of code.now }
    requires stays { (p : ℕ) → IsStart code.now p → StaysInCode code.now p }
    requires short { length code.now < 65536 }
    requires long { length marks.old.items ≡ length code.now }
    ensures { Marks marks.old.items marks.new.items (λ q. (p : ℕ) × NamesIn code.now p q) }
{
    for place in starts {
        mark_line(code, *place, marks);
    }
}

/// Marks the handlers.
fn mark_handlers(ranges: &[HandlerRange], marks: &mut Vec<bool>)
    requires { All (λ r. r.handler < length marks.old.items) ranges.now }
    ensures { Marks marks.old.items marks.new.items (HandlesAt ranges.now) }
{
    for range in ranges {
        marks[range.handler as usize] = true;
    }
}

/// For each place of the method's code whether it is named. `starts` has the places at which its instructions begin.
pub(crate) fn named_places(
    alloc: Global,
    method: &FlowMethod,
    starts: &[u32],
) -> Result<Vec<bool>, NoMemory>
    requires { starts.now ≡ starts_of method.now.code }
    ensures { IfOk result (λ marks. (q : ℕ) → (mark_at marks.items q ≡ true) ↔ IsNamedIn method.now q) }
{
    opcodes::laws::starts_follow_one_another();
    let code = method.code();
    let mut marks = vec![in alloc; false; code.len()]?;
    mark_code(code, starts, &mut marks);
    mark_handlers(method.ranges(), &mut marks);
    Ok(marks)
}

/// How long the instruction at a place is.
fn length_at(code: &[u8], pc: u32) -> u32
    requires start { IsStart code.now pc }
    requires stays { StaysInCode code.now pc }
    requires short { length code.now < 65536 }
    ensures end { EndsAt code.now pc (pc + result) }
    ensures within { pc + result ≤ length code.now }
{
    opcodes::laws::starts_follow_one_another();
    match decode(code, pc) {
        Ok(instr) => instr.length,
        Err(_) => 0,
    }
}

/// For each place of a code, and the end of the code, the place of the instruction that ends there.
pub(crate) fn ends(alloc: Global, code: &[u8], starts: &[u32]) -> Result<Vec<Option<u32>>, NoMemory>
    requires starts { starts.now ≡ starts_of code.now }
    requires stays { (p : ℕ) → IsStart code.now p → StaysInCode code.now p }
    requires short { length code.now < 65536 }
    ensures { IfOk result (λ ends. (q : ℕ) → MatchOption (slice_index_or ends.items q None) ((p : ℕ) → ¬ EndsAt code.now p q) (λ p. EndsAt code.now p q)) }
{
    let mut ends = vec![in alloc; None; code.len() + 1]?;
    for place in starts {
        let end = *place + length_at(code, *place);
        ends[end as usize] = Some(*place);
    }
    Ok(ends)
}
