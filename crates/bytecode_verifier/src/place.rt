//! An instruction with the frame before it (JVM Specification SE 8, 4.10.1.6).
ghost use Rattle.std.specs.Prelude.{◌≡◌, ◌<◌, ◌≤◌, ℕ, true, not, List, Option, Some, length, Ok, IfOk, OnOk, IfSome};
ghost use Rattle.std.specs.Option.{option_map};
ghost use Rattle.base.specs.Sizes.{longest_file};
ghost use Rattle.opcodes.specs.Instruction.{decoded};
ghost use Rattle.opcodes.specs.Target.{cases_of};
ghost use Rattle.opcodes.specs.declared.instruction.Instr as instr;
ghost use Rattle.bytecode_model.specs.Program as model;
ghost use Rattle.bytecode_model.specs.Rows as rows;
ghost use Rattle.bytecode_model.specs.Table.{row_of};
ghost use Rattle.bytecode_typing.specs.Types as typing;
ghost use Rattle.bytecode_typing.specs.Walk as walk;
ghost use Rattle.program_tables.specs.Meanings.{operand_seen, HasShape};
ghost use Rattle.program_tables.specs.Numbers.{methods_by_number};
ghost use Rattle.program_tables.specs.Resolved.{resolved};
ghost use Rattle.verifier_types.specs.Frame.{frame_seen, frame_at_seen};
ghost use Rattle.verifier_types.specs.Locals.{HasListsOf, lists_seen};
ghost use Rattle.bytecode_verifier.specs.Family.{family_row};
ghost use Rattle.bytecode_verifier.specs.Handled.{HaveSameLocals, IsHeld, keeps_locals};
ghost use Rattle.bytecode_verifier.specs.Place.{IsHeldBehind, HasCode, IsMethodOf, IsNamedAs, stays_within, behind, step_seen};
ghost use Rattle.bytecode_verifier.specs.Settled.{verdict_seen};

use crate::family::{Call, Family, Leads, Named, Value, family_of};
use crate::handlers::are_handled;
use crate::maps::frame_at;
use crate::members::callee;
use crate::rows::{Checking, check_row};
use crate::seen::type_of;
use crate::settle::{Verdict, settle};
use crate::switches::keys_rise;
use base::NoMemory;
use opcodes::Instr;
use program_tables::{Instruction, MethodShape, Operand};
use std::alloc::Global;
use verifier_types::{LocalLists, Rule, TypeFrame, has_same_locals};

/// What is found of an instruction: the rule that fails first, or the frame that falls into the next one, if one does, and whether it is
/// known that the handlers here take that frame.
#[derive(Drop)]
pub enum Step {
    Breaks(Rule),
    Goes(Option<TypeFrame>, bool),
}

const TABLESWITCH: u8 = 170;

const LOOKUPSWITCH: u8 = 171;

/// Whether control doesn't go on behind an instruction of the family.
fn stops(instr: &Instr, family: Family) -> bool
    ensures { (code : List ℕ) (o : model.Operand) → result ≡ not (walk.falls_through (family_row family code instr.now o)) }
{
    match family {
        Family::Leads(leads) => match leads {
            Leads::Jump | Leads::TableSwitch | Leads::Throw | Leads::Return(_) => true,
            Leads::LookupSwitch => instr.second >= 0,
            _ => false,
        },
        _ => false,
    }
}

/// The words of a method's arguments, `this` counted.
fn argument_words(shape: &MethodShape) -> usize
    ensures { (m : model.Method) → HasShape shape.now m → result ≡ walk.argument_words m }
{
    let mut words = usize::from(shape.has_this);
    for parameter in shape.parameters.as_slice() {
        words += type_of(*parameter).words();
    }
    words
}

/// Whether the method's arguments take so many words.
fn has_words(shape: &MethodShape, count: i32) -> bool
    ensures { (m : model.Method) → HasShape shape.now m → result ≡ walk.has_words (Some m) count }
{
    match usize::try_from(count) {
        Ok(count) => count == argument_words(shape),
        Err(_) => false,
    }
}

/// Whether an `invokeinterface` of this method has the number of argument words, and then a zero (6.5.invokeinterface).
fn is_interface_call(checking: &Checking<'_>, place: u32, x: &Instruction) -> bool
    ensures { (named method : ℕ) → operand_seen x.now.operand ≡ model.AMethod named method
        → result ≡ walk.is_formed (resolved checking.now.program.now) checking.now.code.now place x.now.instr (rows.CallInterface named method) }
{
    let at = place as usize + 4;
    let behind = if at < checking.code.len() {
        checking.code[at]
    } else {
        0
    };
    if behind != 0 {
        return false;
    }
    match x.operand {
        Operand::Method(_, number) => match callee(checking.program, number) {
            Some(shape) => has_words(shape, x.instr.second),
            None => false,
        },
        _ => false,
    }
}

/// Whether a `tableswitch` has a range, and the keys rise (4.9.1).
fn is_switch_formed(code: &[u8], place: u32, instr: &Instr) -> bool
    requires decoded { decoded code.now place ≡ Ok instr.now }
    requires small { length code.now ≤ longest_file }
    ensures { (P : model.Program) → result ≡ walk.is_formed P code.now place instr.now (rows.Switch instr.now.first (cases_of code.now instr.now)) }
{
    if instr.op == TABLESWITCH && instr.count == 0 {
        return false;
    }
    keys_rise(code, place, instr)
}

/// Whether what a row doesn't keep of its instruction is in its form (4.9.1).
fn is_formed(checking: &Checking<'_>, place: u32, x: &Instruction) -> bool
    requires decoded { decoded checking.now.code.now place ≡ Ok x.now.instr }
    requires small { length checking.now.code.now ≤ longest_file }
    ensures { IfSome (row_of checking.now.code.now x.now.instr (operand_seen x.now.operand))
        (λ row. result ≡ walk.is_formed (resolved checking.now.program.now) checking.now.code.now place x.now.instr row) }
{
    match family_of(x.instr.op) {
        Family::Leads(leads) => match leads {
            Leads::TableSwitch => is_switch_formed(checking.code, place, &x.instr),
            Leads::LookupSwitch => is_switch_formed(checking.code, place, &x.instr),
            Leads::Branch(_) => true,
            Leads::Same => true,
            Leads::IsNull => true,
            Leads::Jump => true,
            Leads::Throw => true,
            Leads::Return(_) => true,
        },
        Family::Call(call) => match call {
            Call::Interface => is_interface_call(checking, place, x),
            Call::Static => true,
            Call::Special => true,
            Call::Virtual => true,
        },
        Family::Unknown => true,
        Family::Value(_) => true,
        Family::Array(_) => true,
        Family::Named(_) => true,
        Family::Field(_) => true,
    }
}

/// Whether instructions of the family leave the local variables as they are, and whether `this` is initialised.
fn keeps_locals(family: Family) -> bool
    ensures { (code : List ℕ) (i : instr.Instr) (o : model.Operand) → result ≡ true → keeps_locals (family_row family code i o) ≡ true }
{
    match family {
        Family::Value(value) => !matches!(value, Value::Store(_) | Value::StoreAt(_, _)),
        Family::Named(named) => !matches!(named, Named::New),
        Family::Call(call) => !matches!(call, Call::Special),
        Family::Unknown | Family::Array(_) | Family::Field(_) | Family::Leads(_) => true,
    }
}

/// Whether there are handlers, and what holds of the frame before an instruction with this opcode holds of the one behind it.
fn is_kept(checking: &Checking<'_>, op: u8) -> bool
    ensures { result ≡ true → (code : List ℕ) (i : instr.Instr) (o : model.Operand) → i.op ≡ op → keeps_locals (row_of code i o) ≡ true }
{
    !checking.handlers.is_empty() && keeps_locals(family_of(op))
}

/// Whether control doesn't pass the end of the code behind an instruction.
fn stays_within(code: &[u8], place: u32, instr: &Instr) -> bool
    ensures { (o : model.Operand) → result ≡ stays_within code.now place instr.now (row_of code.now instr.now o) }
{
    if instr.op == LOOKUPSWITCH || stops(instr, family_of(instr.op)) {
        return true;
    }
    place as usize + (instr.length as usize) < code.len()
}

/// What the rules say of an instruction in its form, from those on operands and stack on.
#[tactic(auto, using(crate::proofs::ListedLemmas::lists_again, crate::proofs::ListedLemmas::lists_kept))]
fn settle_row(
    checking: &Checking<'_>,
    lists: &mut LocalLists<'_>,
    place: u32,
    frame: &mut TypeFrame,
    x: &Instruction,
    asked: Option<u32>,
) -> Result<Verdict, NoMemory>
    requires decoded { decoded checking.now.code.now place ≡ Ok x.now.instr }
    requires small { length checking.now.code.now ≤ longest_file }
    ensures lists { OnOk result (HasListsOf lists.old lists.new) }
    ensures verdict { let before = frame_seen (lists_seen lists.old) frame.old in let after = frame_seen (lists_seen lists.new) frame.new in IfOk result
        (λ v. (n : ℕ) (m : model.Method) (b : model.Body) (maps : ℕ → Option typing.TypeFrame) → IsMethodOf lists.old checking.now n m b maps
        → IsNamedAs checking.now n place x.now → IsHeld (resolved checking.now.program.now) maps asked (Some before) b.handlers
        → verdict_seen v before after ≡ walk.on_row (resolved checking.now.program.now) n m b maps place before x.now.instr
        (row_of checking.now.code.now x.now.instr (operand_seen x.now.operand))) }
{
    checking.program.is_resolved();
    if !is_formed(checking, place, x) {
        return Ok(Verdict::Breaks(Rule::Operand));
    }
    let handled = are_handled(lists, checking.maps, asked, place, frame, checking.handlers);
    let checked = check_row(checking, lists, place, frame, x)?;
    Ok(settle(checked, frame, checking.max_stack, handled))
}

/// Whether the local variables of both are known to be of the same types, and `this` isn't initialised in both or in neither.
fn are_same(lists: &LocalLists<'_>, first: &TypeFrame, second: &TypeFrame) -> bool
    ensures { let ls = lists_seen lists.now in result ≡ true → HaveSameLocals (frame_seen ls first.now) (frame_seen ls second.now) }
{
    first.flag == second.flag && has_same_locals(lists, &first.locals, &second.locals)
}

/// The place at which the handlers were asked, if the frame before an instruction has the local variables of the one that falls in.
fn still_asked(
    lists: &LocalLists<'_>,
    asked: Option<u32>,
    map: Option<&TypeFrame>,
    falling: Option<&TypeFrame>,
) -> Option<u32>
    ensures { let ls = lists_seen lists.now in (P : model.Program) (frames : ℕ → Option typing.TypeFrame) (hs : List model.Handler) (f : typing.TypeFrame)
        → Some f ≡ walk.incoming (frame_at_seen ls map.entry) (frame_at_seen ls falling.entry) → IsHeld P frames asked (frame_at_seen ls
        falling.entry) hs → IsHeld P frames result (Some f) hs }
{
    let place = asked?;
    let given = match map {
        Some(given) => given,
        None => return Some(place),
    };
    match falling {
        Some(frame) if are_same(lists, frame, given) => Some(place),
        _ => None,
    }
}

/// The frame before an instruction, which is that of the StackMapTable or the one that falls in, and whether the latter is assignable
/// to the former.
fn joined(
    alloc: Global,
    lists: &mut LocalLists<'_>,
    map: Option<&TypeFrame>,
    falling: Option<TypeFrame>,
) -> Result<Option<(TypeFrame, bool)>, NoMemory>
    ensures frame { let ls = lists_seen lists.old in IfOk result
        (λ j. option_map (λ x. frame_seen ls x.0) j ≡ walk.incoming (frame_at_seen ls map.entry) (option_map (frame_seen ls) falling)) }
    ensures merged { let ls = lists_seen lists.old in IfOk result
        (λ j. IfSome j (λ x. x.1 ≡ walk.merges (resolved lists.old.classes) (frame_at_seen ls map.entry) (option_map (frame_seen ls) falling))) }
    ensures kept { lists.new ≡ lists.old }
{
    match map {
        None => match falling {
            Some(frame) => Ok(Some((frame, true))),
            None => Ok(None),
        },
        Some(given) => {
            let merged = match &falling {
                Some(frame) => frame.flows_to(lists, given),
                None => true,
            };
            Ok(Some((given.copied(alloc)?, merged)))
        }
    }
}

/// What is found at a place of the method of this number, into which the frame `falling` falls, if one does. The handlers that cover the
/// place `asked`, if there is one, take that frame.
#[tactic(auto, using(crate::proofs::ListedLemmas::lists_again, crate::proofs::ListedLemmas::lists_kept))]
pub fn verdict_at(
    alloc: Global,
    checking: &Checking<'_>,
    lists: &mut LocalLists<'_>,
    number: u32,
    place: u32,
    falling: Option<TypeFrame>,
    asked: Option<u32>,
) -> Result<Step, NoMemory>
    requires method { number < length (methods_by_number checking.now.program.now) }
    requires code { HasCode checking.now number }
    requires small { length checking.now.code.now ≤ longest_file }
    ensures lists { OnOk result (HasListsOf lists.old lists.new) }
    ensures step { let before = lists_seen lists.old in let after = lists_seen lists.new in IfOk result
        (λ step. (m : model.Method) (b : model.Body) (maps : ℕ → Option typing.TypeFrame) → IsMethodOf lists.old checking.now number m b maps
        → IsHeld (resolved checking.now.program.now) maps asked (option_map (frame_seen before) falling) b.handlers → (step_seen after step ≡ behind
        (walk.verdict_at (resolved checking.now.program.now) number m b maps place
        (option_map (frame_seen before) falling))) × IsHeldBehind after (resolved checking.now.program.now) maps place step b.handlers) }
{
    let map = frame_at(checking.maps, u64::from(place));
    let asked = still_asked(lists, asked, map, falling.as_ref());
    let (mut frame, merged) = match joined(alloc, lists, map, falling)? {
        Some(found) => found,
        None => return Ok(Step::Breaks(Rule::Flow)),
    };
    let x = match checking.program.instruction(number, place) {
        Some(x) => x,
        None => return Ok(Step::Breaks(Rule::Operand)),
    };
    if !stays_within(checking.code, place, &x.instr) {
        return Ok(Step::Breaks(Rule::Flow));
    }
    if !merged {
        return Ok(Step::Breaks(Rule::Merge));
    }
    match settle_row(checking, lists, place, &mut frame, &x, asked)? {
        Verdict::Breaks(rule) => Ok(Step::Breaks(rule)),
        Verdict::Passes(true) => Ok(Step::Goes(Some(frame), is_kept(checking, x.instr.op))),
        Verdict::Passes(false) => Ok(Step::Goes(None, false)),
    }
}
