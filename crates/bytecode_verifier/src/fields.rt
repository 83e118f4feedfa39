//! Reading and writing of fields (JVM Specification SE 8, 4.10.1.9).
ghost use Rattle.std.specs.Prelude.{◌≡◌, ℕ, Some, IfOk, slice_get, ◌&&◌};
ghost use Rattle.bytecode_model.specs.Rows as rows;
ghost use Rattle.bytecode_typing.specs.Types as typing;
ghost use Rattle.bytecode_typing.specs.Types.{is_initialized};
ghost use Rattle.bytecode_typing.specs.Checks as checks;
ghost use Rattle.program_tables.specs.Meanings.{declared_seen};
ghost use Rattle.verifier_types.specs.Seen.{type_seen};
ghost use Rattle.verifier_types.specs.Site.{Site, ChecksSite};
ghost use Rattle.bytecode_verifier.specs.Around.{StandsAt};

use crate::around::Around;
use crate::seen::{is_seen_as, is_seen_for, may_access, may_be_written, type_of};
use base::NoMemory;
use program_tables::Declared;
use verifier_types::{Checked, GOES, Left, Rule, TypeFrame, VarType, uses};

/// `getstatic` of a field of this type.
pub fn check_get_static(frame: &mut TypeFrame, declared: Declared) -> Result<Checked, NoMemory>
    ensures { IfOk result (λ c. (s : Site) (field : ℕ) → slice_get s.program.statics field ≡ Some (declared_seen declared)
        → ChecksSite s (rows.GetStatic field) frame.old c frame.new) }
{
    frame.operands.push(type_of(declared))?;
    Ok(GOES)
}

/// `putstatic`.
pub fn check_put_static(around: &Around<'_>, frame: &mut TypeFrame, declared: Declared) -> Checked
    ensures { (s : Site) (field : ℕ) → StandsAt around.now s → slice_get s.program.statics field ≡ Some (declared_seen declared)
        → ChecksSite s (rows.PutStatic field) frame.old result frame.new }
{
    match frame.operands.pop() {
        Some(item) => {
            if is_seen_for(around, declared, item) {
                uses(item)
            } else {
                Checked::Fails(Rule::Stack)
            }
        }
        None => Checked::Fails(Rule::Stack),
    }
}

/// `getfield` of a field named through the class `named`, which is guarded or not.
pub fn check_get_field(
    around: &Around<'_>,
    guarded: bool,
    frame: &mut TypeFrame,
    named: u32,
    declared: Declared,
) -> Result<Checked, NoMemory>
    ensures { IfOk result (λ c. (s : Site) (owner index : ℕ) → StandsAt around.now s → s.program.guarded s.number s.place ≡ guarded
        → slice_get (s.program.fields owner) index ≡ Some (declared_seen declared) → ChecksSite s (rows.GetField named owner index) frame.old c frame.new) }
{
    let object = match frame.operands.pop() {
        Some(item) => item,
        None => return Ok(Checked::Fails(Rule::Stack)),
    };
    if !is_seen_as(around, named, object) {
        return Ok(Checked::Fails(Rule::Stack));
    }
    frame.operands.push(type_of(declared))?;
    Ok(Checked::Leaves(Left {
        falls: true,
        access: may_access(around, guarded, object),
        init: object.is_initialized(),
        target: true,
    }))
}

/// Whether the value is initialised, and the field, which the class `owner` declares, may be written in the object.
fn may_put(around: &Around<'_>, owner: u32, value: VarType, object: VarType) -> bool
    ensures { (s : Site) (f : typing.TypeFrame) → StandsAt around.now s
        → result ≡ (is_initialized (type_seen value) && checks.may_be_written s.program s.number s.method s.body s.maps s.place f owner (type_seen object)) }
{
    value.is_initialized() && may_be_written(around, owner, object)
}

/// `putfield`.
pub fn check_put_field(
    around: &Around<'_>,
    guarded: bool,
    frame: &mut TypeFrame,
    named: u32,
    owner: u32,
    declared: Declared,
) -> Checked
    ensures { (s : Site) (index : ℕ) → StandsAt around.now s → s.program.guarded s.number s.place ≡ guarded
        → slice_get (s.program.fields owner) index ≡ Some (declared_seen declared) → ChecksSite s (rows.PutField named owner index) frame.old result frame.new }
{
    let value = match frame.operands.pop() {
        Some(item) => item,
        None => return Checked::Fails(Rule::Stack),
    };
    let object = match frame.operands.pop() {
        Some(item) => item,
        None => return Checked::Fails(Rule::Stack),
    };
    if !is_seen_for(around, declared, value) {
        return Checked::Fails(Rule::Stack);
    }
    if !is_seen_as(around, named, object) {
        return Checked::Fails(Rule::Stack);
    }
    Checked::Leaves(Left {
        falls: true,
        access: may_access(around, guarded, object),
        init: may_put(around, owner, value, object),
        target: true,
    })
}
