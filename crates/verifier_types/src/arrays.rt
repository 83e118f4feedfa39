//! Arrays (JVM Specification SE 8, 4.10.1.9).
ghost use Rattle.std.specs.Prelude.{◌≡◌, ℕ, ℤ, IfOk, option_map};
ghost use Rattle.bytecode_model.specs.Rows as rows;
ghost use Rattle.bytecode_model.specs.Types.{Kind, OfNumbers, OfReferences, element_type};
ghost use Rattle.bytecode_typing.specs.Checks.{same_number, is_array_type, is_array_type_of, component_type};
ghost use Rattle.program_tables.specs.Tables.{kind_seen};
ghost use Rattle.verifier_types.specs.Seen.{number_seen, type_seen};
ghost use Rattle.verifier_types.specs.Site.{Site, ChecksSite};

use crate::checked::{Checked, GOES, Rule, uses};
use crate::frame::TypeFrame;
use crate::types::{NumberType, VarType};
use base::NoMemory;
use program_tables::{Base, ObjectKind};

const T_LONG: u8 = 11;

/// Whether it is null or an array.
fn is_array(item: VarType) -> bool
    ensures { result ≡ is_array_type (type_seen item) }
{
    match item {
        VarType::Null => true,
        VarType::Reference(kind) => match kind.base {
            Base::Class(_) => kind.dimensions > 0,
            Base::Numbers(_) => true,
        },
        _ => false,
    }
}

/// Whether an array of this code has such numbers as elements.
fn has_elements(code: u8, number: NumberType) -> bool
    ensures { result ≡ same_number (element_type code) (number_seen number) }
{
    match number {
        NumberType::Int => code != T_LONG,
        NumberType::Long => code == T_LONG,
    }
}

/// Whether it is null, or an array of one of these codes, whose elements are such numbers.
fn is_array_of(number: NumberType, codes: &[u8], item: VarType) -> bool
    ensures { result ≡ is_array_type_of (number_seen number) codes.now (type_seen item) }
{
    match item {
        VarType::Null => true,
        VarType::Reference(kind) => match kind.base {
            Base::Numbers(code) => {
                kind.dimensions == 0 && codes.contains(&code) && has_elements(code, number)
            }
            Base::Class(_) => false,
        },
        _ => false,
    }
}

/// What an array of references is loaded as; of null, null.
fn component(item: VarType) -> Option<VarType>
    ensures { option_map type_seen result ≡ component_type (type_seen item) }
{
    match item {
        VarType::Null => Some(VarType::Null),
        VarType::Reference(kind) => Some(VarType::Reference(ObjectKind {
            dimensions: kind.dimensions.checked_sub(1)?,
            base: kind.base,
        })),
        _ => None,
    }
}

/// `newarray` and `anewarray`: an array of this kind is made.
pub fn check_new_array(frame: &mut TypeFrame, kind: ObjectKind) -> Result<Checked, NoMemory>
    ensures numbers { IfOk result (λ c. (s : Site) (code : ℕ) → kind_seen kind ≡ OfNumbers code → ChecksSite s (rows.NewNumbers code) frame.old c frame.new) }
    ensures references { IfOk result (λ c. (s : Site) (k : Kind) → kind_seen kind ≡ OfReferences k
        → ChecksSite s (rows.NewReferences k) frame.old c frame.new) }
{
    if !frame.operands.pop_numbers(&[NumberType::Int]) {
        return Ok(Checked::Fails(Rule::Stack));
    }
    frame.operands.push(VarType::Reference(kind))?;
    Ok(GOES)
}

/// `arraylength`.
pub fn check_length(frame: &mut TypeFrame) -> Result<Checked, NoMemory>
    ensures { IfOk result (λ c. (s : Site) → ChecksSite s rows.Length frame.old c frame.new) }
{
    match frame.operands.pop() {
        Some(item) if is_array(item) => {
            frame.operands.push(VarType::Integer)?;
            Ok(GOES)
        }
        _ => Ok(Checked::Fails(Rule::Stack)),
    }
}

/// A number is loaded from an array of one of these codes.
pub fn check_load_number(
    frame: &mut TypeFrame,
    number: NumberType,
    codes: &[u8],
) -> Result<Checked, NoMemory>
    ensures { IfOk result (λ c. (s : Site) → ChecksSite s (rows.LoadNumber (number_seen number) codes.now) frame.old c frame.new) }
{
    if !frame.operands.pop_numbers(&[NumberType::Int]) {
        return Ok(Checked::Fails(Rule::Stack));
    }
    match frame.operands.pop() {
        Some(item) if is_array_of(number, codes, item) => {
            frame.operands.push(number.as_type())?;
            Ok(GOES)
        }
        _ => Ok(Checked::Fails(Rule::Stack)),
    }
}

/// A number is stored into an array of one of these codes.
pub fn check_store_number(frame: &mut TypeFrame, number: NumberType, codes: &[u8]) -> Checked
    ensures { (s : Site) (kept : ℤ → ℤ) → ChecksSite s (rows.StoreNumber (number_seen number) codes.now kept) frame.old result frame.new }
{
    if !frame.operands.pop_numbers(&[number, NumberType::Int]) {
        return Checked::Fails(Rule::Stack);
    }
    match frame.operands.pop() {
        Some(item) if is_array_of(number, codes, item) => GOES,
        _ => Checked::Fails(Rule::Stack),
    }
}

/// `aaload`.
pub fn check_load_reference(frame: &mut TypeFrame) -> Result<Checked, NoMemory>
    ensures { IfOk result (λ c. (s : Site) → ChecksSite s rows.LoadReference frame.old c frame.new) }
{
    if !frame.operands.pop_numbers(&[NumberType::Int]) {
        return Ok(Checked::Fails(Rule::Stack));
    }
    let item = match frame.operands.pop() {
        Some(item) => item,
        None => return Ok(Checked::Fails(Rule::Stack)),
    };
    match component(item) {
        Some(element) => {
            frame.operands.push(element)?;
            Ok(GOES)
        }
        None => Ok(Checked::Fails(Rule::Stack)),
    }
}

/// `aastore`.
pub fn check_store_reference(frame: &mut TypeFrame) -> Checked
    ensures { (s : Site) → ChecksSite s rows.StoreReference frame.old result frame.new }
{
    let stored = match frame.operands.pop_reference() {
        Some(item) => item,
        None => return Checked::Fails(Rule::Stack),
    };
    if !frame.operands.pop_numbers(&[NumberType::Int]) {
        return Checked::Fails(Rule::Stack);
    }
    match frame.operands.pop() {
        Some(item) if component(item).is_some() => uses(stored),
        _ => Checked::Fails(Rule::Stack),
    }
}
