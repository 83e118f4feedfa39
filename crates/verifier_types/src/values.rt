//! Constants, numbers, local variables and words of the operand stack (JVM Specification SE 8, 4.10.1.9).
ghost use Rattle.std.specs.Prelude.{◌≡◌, List, ℕ, ℤ, [], map, IfOk, OnOk, Option, Bool};
ghost use Rattle.bytecode_model.specs.declared.Value.{Value};
ghost use Rattle.bytecode_model.specs.Rows as rows;
ghost use Rattle.bytecode_model.specs.Types as model;
ghost use Rattle.bytecode_typing.specs.Checks.{constant_type};
ghost use Rattle.verifier_types.specs.Seen.{number_seen, moved_seen, type_seen, width_seen, form_seen};
ghost use Rattle.verifier_types.specs.Locals.{HasListsOf, lists_seen};
ghost use Rattle.verifier_types.specs.Site.{Site, ChecksSite, ChecksIn, ChecksOver};

use crate::checked::{Checked, GOES, Rule};
use crate::frame::TypeFrame;
use crate::local_lists::LocalLists;
use crate::types::{Moved, NumberType, VarType};
use crate::words::{Form, Width};
use base::NoMemory;

/// A value of this type is put on the stack.
pub fn check_push(frame: &mut TypeFrame, item: VarType) -> Result<Checked, NoMemory>
    ensures constant { IfOk result (λ c. (s : Site) (v : Value) → constant_type s.program v ≡ type_seen item
        → ChecksSite s (rows.Push v) frame.old c frame.new) }
{
    frame.operands.push(item)?;
    Ok(GOES)
}

/// Numbers are taken off the stack, the first of them from its top, and a number is put on it.
pub fn check_compute(
    frame: &mut TypeFrame,
    taken: &[NumberType],
    given: NumberType,
) -> Result<Checked, NoMemory>
    ensures { IfOk result (λ c. (s : Site) (compute : rows.FunctionOf (map number_seen taken.now) (Option ℤ))
        → ChecksSite s (rows.Compute (map number_seen taken.now) (number_seen given) compute) frame.old c frame.new) }
{
    if !frame.operands.pop_numbers(taken) {
        return Ok(Checked::Fails(Rule::Stack));
    }
    frame.operands.push(given.as_type())?;
    Ok(GOES)
}

/// A local variable is put on the stack.
pub fn check_load(
    lists: &LocalLists<'_>,
    frame: &mut TypeFrame,
    max_locals: u16,
    sort: Moved,
    index: u32,
) -> Result<Checked, NoMemory>
    ensures { IfOk result (λ c. (s : Site) → s.body.max_locals ≡ max_locals
        → ChecksIn (lists_seen lists.now) s (rows.Load (moved_seen sort) index) frame.old c frame.new) }
{
    if !sort.is_within(index, max_locals) {
        return Ok(Checked::Fails(Rule::Operand));
    }
    let item = match frame.locals.local(lists, index) {
        Some(item) => item,
        None => return Ok(Checked::Fails(Rule::Operand)),
    };
    if !item.is_moved(sort) {
        return Ok(Checked::Fails(Rule::Stack));
    }
    frame.operands.push(item)?;
    Ok(GOES)
}

/// A local variable is written from the top of the stack. Where memory is wanting lists may have been added.
pub fn check_store(
    lists: &mut LocalLists<'_>,
    frame: &mut TypeFrame,
    max_locals: u16,
    sort: Moved,
    index: u32,
) -> Result<Checked, NoMemory>
    ensures lists { OnOk result (HasListsOf lists.old lists.new) }
    ensures checks { IfOk result (λ c. (s : Site) → s.body.max_locals ≡ max_locals
        → ChecksOver (lists_seen lists.old) (lists_seen lists.new) s (rows.Store (moved_seen sort) index) frame.old c frame.new) }
{
    if !sort.is_within(index, max_locals) {
        return Ok(Checked::Fails(Rule::Operand));
    }
    let item = match frame.operands.pop() {
        Some(item) => item,
        None => return Ok(Checked::Fails(Rule::Stack)),
    };
    if !item.is_moved(sort) {
        return Ok(Checked::Fails(Rule::Stack));
    }
    if !frame.locals.store(lists, index, item)? {
        return Ok(Checked::Fails(Rule::Operand));
    }
    Ok(GOES)
}

/// A number is added to a local variable.
pub fn check_increment(
    lists: &LocalLists<'_>,
    frame: &TypeFrame,
    max_locals: u16,
    index: u32,
) -> Checked
    ensures { (s : Site) (n : ℤ) → s.body.max_locals ≡ max_locals → ChecksIn (lists_seen lists.now) s (rows.Increment index n) frame.now result frame.now }
{
    if !Moved::Ints.is_within(index, max_locals) {
        return Checked::Fails(Rule::Operand);
    }
    match frame.locals.local(lists, index) {
        Some(VarType::Integer) => GOES,
        Some(_) => Checked::Fails(Rule::Stack),
        None => Checked::Fails(Rule::Operand),
    }
}

/// The topmost words are dropped, copied or exchanged.
pub fn check_shuffle(
    frame: &mut TypeFrame,
    form: Form,
    upper: Width,
    lower: Width,
) -> Result<Checked, NoMemory>
    ensures { IfOk result (λ c. (s : Site) → ChecksSite s (rows.Shuffle (form_seen form) (width_seen upper) (width_seen lower)) frame.old c frame.new) }
{
    if frame.operands.shuffle(form, upper, lower)? {
        Ok(GOES)
    } else {
        Ok(Checked::Fails(Rule::Stack))
    }
}
