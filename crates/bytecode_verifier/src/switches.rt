//! Switches (JVM Specification SE 8, 4.10.1.9).
ghost use Rattle.std.specs.Prelude.{◌≡◌, ◌<◌, ◌≤◌, ℤ, pos, ◌+ℤ◌, int_lt, Ok, length};
ghost use Rattle.std.specs.List.{list_all};
ghost use Rattle.base.specs.Sizes.{longest_file};
ghost use Rattle.opcodes.specs.Instruction.{decoded};
ghost use Rattle.opcodes.specs.Target.{cases_of};
ghost use Rattle.bytecode_model.specs.Lists.{natural};
ghost use Rattle.bytecode_model.specs.Rows as rows;
ghost use Rattle.program_tables.specs.Resolved.{resolved};
ghost use Rattle.bytecode_typing.specs.Assignable.{flows_to};
ghost use Rattle.bytecode_typing.specs.Walk.{keys_rise};
ghost use Rattle.verifier_types.specs.Frame.{frame_seen};
ghost use Rattle.verifier_types.specs.Site.{Site, ChecksIn};
ghost use Rattle.verifier_types.specs.Locals.{lists_seen};
ghost use Rattle.bytecode_verifier.specs.Maps.{AreMapsOf, frame_over};
ghost use Rattle.bytecode_verifier.specs.Switched.{is_case_taken};

use crate::calls::both;
use crate::maps::{MapFrames, target_of};
use opcodes::{Case, Instr, case};
use verifier_types::{Checked, Left, LocalLists, NumberType, Rule, TypeFrame};

/// Whether a frame stands at the offset from the place, and takes this one.
pub fn is_taken(
    lists: &mut LocalLists<'_>,
    maps: &MapFrames,
    place: u32,
    frame: &TypeFrame,
    offset: i32,
) -> bool
    ensures taken { let ls = lists_seen lists.old in result ≡ flows_to (resolved lists.old.classes) (frame_seen ls frame.now)
        (frame_over ls maps.now (natural (pos place +ℤ offset))) }
    ensures kept { lists.new ≡ lists.old }
{
    match target_of(maps, place, offset) {
        Some(other) => frame.flows_to(lists, other),
        None => false,
    }
}

/// Whether that holds of a case of a switch.
fn leads(
    lists: &mut LocalLists<'_>,
    maps: &MapFrames,
    place: u32,
    frame: &TypeFrame,
    case: Case,
) -> bool
    ensures taken { result ≡ is_case_taken lists.old maps.now place (frame_seen (lists_seen lists.old) frame.now) case }
    ensures kept { lists.new ≡ lists.old }
{
    is_taken(lists, maps, place, frame, case.offset)
}

/// Whether that holds of the default offset of a switch.
fn leads_default(
    lists: &mut LocalLists<'_>,
    maps: &MapFrames,
    place: u32,
    frame: &TypeFrame,
    instr: Instr,
) -> bool
    ensures taken { let ls = lists_seen lists.old in result ≡ flows_to (resolved lists.old.classes) (frame_seen ls frame.now)
        (frame_over ls maps.now (natural (pos place +ℤ instr.first))) }
    ensures kept { lists.new ≡ lists.old }
{
    is_taken(lists, maps, place, frame, instr.first)
}

/// Whether that holds of the offsets of all cases of a switch.
fn are_taken(
    lists: &mut LocalLists<'_>,
    maps: &MapFrames,
    place: u32,
    frame: &TypeFrame,
    code: &[u8],
    instr: &Instr,
) -> bool
    requires decoded { decoded code.now place ≡ Ok instr.now }
    requires small { length code.now ≤ longest_file }
    ensures taken { result ≡ list_all (is_case_taken lists.old maps.now place (frame_seen (lists_seen lists.old) frame.now)) (cases_of code.now instr.now) }
    ensures kept { lists.new ≡ lists.old }
{
    for index in 0..instr.count {
        if !leads(lists, maps, place, frame, case(code, place, instr, index)) {
            return false;
        }
    }
    true
}

/// A switch at this place.
pub fn check_switch(
    lists: &mut LocalLists<'_>,
    maps: &MapFrames,
    place: u32,
    frame: &mut TypeFrame,
    code: &[u8],
    instr: &Instr,
) -> Checked
    requires decoded { decoded code.now place ≡ Ok instr.now }
    requires small { length code.now ≤ longest_file }
    ensures checks { let ls = lists_seen lists.old in (s : Site) → s.program ≡ resolved lists.old.classes → s.place ≡ place → AreMapsOf ls maps.now s
        → ChecksIn ls s (rows.Switch instr.now.first (cases_of code.now instr.now)) frame.old result frame.new }
    ensures kept { lists.new ≡ lists.old }
{
    if !frame.operands.pop_numbers(&[NumberType::Int]) {
        return Checked::Fails(Rule::Stack);
    }
    let default = leads_default(lists, maps, place, frame, *instr);
    let cases = are_taken(lists, maps, place, frame, code, instr);
    Checked::Leaves(Left {
        falls: false,
        access: true,
        init: true,
        target: both(default, cases),
    })
}

/// Whether the key of the first case is less.
fn is_below(first: Case, second: Case) -> bool
    ensures { result ≡ int_lt first.key second.key }
{
    first.key < second.key
}

/// Whether the keys of a switch rise.
pub fn keys_rise(code: &[u8], place: u32, instr: &Instr) -> bool
    requires decoded { decoded code.now place ≡ Ok instr.now }
    requires small { length code.now ≤ longest_file }
    ensures { result ≡ keys_rise (cases_of code.now instr.now) }
{
    if instr.count == 0 {
        return true;
    }
    for index in 0..instr.count - 1 {
        let first = case(code, place, instr, index);
        let second = case(code, place, instr, index + 1);
        if !is_below(first, second) {
            return false;
        }
    }
    true
}
