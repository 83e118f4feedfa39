//! The check of an instruction by its family (JVM Specification SE 8, 4.10.1.9).
ghost use Rattle.std.specs.Prelude.{◌≡◌, ◌≤◌, ◌==◌, ℕ, ◌∷◌, [], List, length, Ok, Some, None, IfOk, OnOk, if◌then◌else◌, pos, ◌+ℤ◌};
ghost use Rattle.std.specs.List.{list_any};
ghost use Rattle.base.specs.Sizes.{longest_file};
ghost use Rattle.opcodes.specs.declared.instruction.Instr as model;
ghost use Rattle.opcodes.specs.Instruction.{decoded};
ghost use Rattle.bytecode_model.specs.Lists.{onto, natural};
ghost use Rattle.bytecode_model.specs.Program as program;
ghost use Rattle.bytecode_model.specs.Program.{AMethod};
ghost use Rattle.bytecode_model.specs.Rows as rows;
ghost use Rattle.bytecode_model.specs.Table.{row_of, constant, long_constant};
ghost use Rattle.bytecode_typing.specs.Types as typing;
ghost use Rattle.bytecode_model.specs.Types.{t_boolean, t_char, t_byte, t_short, t_int, t_long};
ghost use Rattle.program_tables.specs.declared.operand.Instruction as tables;
ghost use Rattle.program_tables.specs.Meanings.{operand_seen};
ghost use Rattle.program_tables.specs.Resolved.{resolved};
ghost use Rattle.program_tables.specs.Tables.{kind_seen};
ghost use Rattle.verifier_types.specs.Frame.{frame_at_seen};
ghost use Rattle.verifier_types.specs.Locals.{HasListsOf, LocalTable, lists_seen};
ghost use Rattle.verifier_types.specs.Site.{Site, ChecksSite};
ghost use Rattle.bytecode_verifier.specs.Around.{StandsAt};
ghost use Rattle.bytecode_verifier.specs.Maps.{frame_over};
ghost use Rattle.bytecode_verifier.specs.Checking.{IsTyped, IsAt, ChecksRow, ChecksRowIn, ChecksRowOver};
ghost use Rattle.bytecode_verifier.specs.Family.{value_row, array_row, named_row, field_row, call_row, leads_row};

use crate::around::Around;
use crate::calls::{check_return, check_special, check_static, check_virtual};
use crate::family::{Array, Call, Family, Field, Leads, Named, Value, family_of};
use crate::fields::{check_get_field, check_get_static, check_put_field, check_put_static};
use crate::handlers::Handlers;
use crate::maps::{MapFrames, target_of};
use crate::members::{callee, class_meant, instance_type, static_type};
use crate::objects::{check_new, check_throw};
use crate::switches::check_switch;
use base::NoMemory;
use opcodes::Instr;
use program_tables::{Base, Declared, Instruction, ObjectKind, Operand};
use resolved_program::Program;
use verifier_types::{
    Checked, GOES, LocalLists, NumberType, Rule, TypeFrame, VarType, check_branch, check_cast,
    check_compute, check_increment, check_jump, check_length, check_load, check_load_number,
    check_load_reference, check_monitor, check_new_array, check_null, check_push, check_same,
    check_shuffle, check_store, check_store_number, check_store_reference, check_test,
};

/// A method whose instructions are checked.
#[derive(Drop)]
pub struct Checking<'a> {
    pub program: &'a Program,
    pub around: Around<'a>,
    pub maps: &'a MapFrames,
    pub code: &'a [u8],
    pub handlers: &'a Handlers,
    pub max_locals: u16,
    pub max_stack: u16,
    /// What the method gives.
    pub result: Option<Declared>,
}

/// Where the pool index, the local variable or the code of an instruction is out of its form.
const OUT_OF_FORM: Checked = Checked::Fails(Rule::Operand);

const STRING: ObjectKind = ObjectKind {
    dimensions: 0,
    base: Base::Class(3),
};

/// The index of the local variable that an instruction has.
fn local_of(instr: &Instr) -> Option<u32>
    ensures { result ≡ natural instr.now.first }
{
    u32::try_from(instr.first).ok()
}

/// The array type code of numbers that an instruction has (6.5.newarray).
fn code_of_numbers(instr: &Instr) -> Option<u8>
    ensures { result ≡ onto (natural instr.now.first) (λ a. if list_any (λ c. c == a)
        (t_boolean ∷ t_char ∷ t_byte ∷ t_short ∷ t_int ∷ t_long ∷ []) then Some a else None) }
{
    match u8::try_from(instr.first) {
        Ok(code) if matches!(code, 4 | 5 | 8 | 9 | 10 | 11) => Some(code),
        _ => None,
    }
}

/// `impdep2`, the output of a byte.
fn check_write(frame: &mut TypeFrame) -> Checked
    ensures { (s : Site) → ChecksSite s rows.Write frame.old result frame.new }
{
    if frame.operands.pop_numbers(&[NumberType::Int]) {
        GOES
    } else {
        Checked::Fails(Rule::Stack)
    }
}

/// Constants, numbers, local variables, words of the operand stack, input and output.
#[tactic(auto, using(crate::proofs::ListedLemmas::lists_again, crate::proofs::ListedLemmas::lists_kept))]
fn check_value(
    lists: &mut LocalLists<'_>,
    frame: &mut TypeFrame,
    max_locals: u16,
    instr: &Instr,
    family: Value,
) -> Result<Checked, NoMemory>
    ensures lists { OnOk result (HasListsOf lists.old lists.new) }
    ensures checks { IfOk result (λ c. (s : Site) (code : List ℕ) (o : program.Operand) → s.body.max_locals ≡ max_locals
        → ChecksRowOver (lists_seen lists.old) (lists_seen lists.new) s (value_row family code instr.now o) frame.old c frame.new) }
{
    match family {
        Value::Nothing => Ok(GOES),
        Value::PushNull => check_push(frame, VarType::Null),
        Value::PushInt => check_push(frame, VarType::Integer),
        Value::PushLong => check_push(frame, VarType::LongInteger),
        Value::Compute(taken, given) => check_compute(frame, taken, given),
        Value::Load(sort) => match local_of(instr) {
            Some(index) => check_load(lists, frame, max_locals, sort, index),
            None => Ok(OUT_OF_FORM),
        },
        Value::LoadAt(sort, index) => check_load(lists, frame, max_locals, sort, index),
        Value::Store(sort) => match local_of(instr) {
            Some(index) => check_store(lists, frame, max_locals, sort, index),
            None => Ok(OUT_OF_FORM),
        },
        Value::StoreAt(sort, index) => check_store(lists, frame, max_locals, sort, index),
        Value::Increment => match local_of(instr) {
            Some(index) => Ok(check_increment(lists, frame, max_locals, index)),
            None => Ok(OUT_OF_FORM),
        },
        Value::Shuffle(form, upper, lower) => check_shuffle(frame, form, upper, lower),
        Value::Write => Ok(check_write(frame)),
    }
}

/// Arrays and monitors.
fn check_array(frame: &mut TypeFrame, instr: &Instr, family: Array) -> Result<Checked, NoMemory>
    ensures { IfOk result (λ c. (s : Site) (code : List ℕ) (o : program.Operand) → ChecksRow s (array_row family code instr.now o) frame.old c frame.new) }
{
    match family {
        Array::New => match code_of_numbers(instr) {
            Some(code) => check_new_array(
                frame,
                ObjectKind {
                    dimensions: 0,
                    base: Base::Numbers(code),
                },
            ),
            None => Ok(OUT_OF_FORM),
        },
        Array::Length => check_length(frame),
        Array::LoadNumber(number, codes) => check_load_number(frame, number, codes),
        Array::StoreNumber(number, codes) => Ok(check_store_number(frame, number, codes)),
        Array::LoadReference => check_load_reference(frame),
        Array::StoreReference => Ok(check_store_reference(frame)),
        Array::Monitor => Ok(check_monitor(frame)),
    }
}

/// `ldc` and `ldc_w`.
fn check_constant(frame: &mut TypeFrame, operand: Operand) -> Result<Checked, NoMemory>
    ensures { IfOk result (λ c. (s : Site) (code : List ℕ) (i : model.Instr) → IsTyped s.program (operand_seen operand)
        → ChecksRow s (constant code i (operand_seen operand)) frame.old c frame.new) }
{
    match operand {
        Operand::Int(_) => check_push(frame, VarType::Integer),
        Operand::Text(_) => check_push(frame, VarType::Reference(STRING)),
        _ => Ok(OUT_OF_FORM),
    }
}

/// `ldc2_w`.
fn check_long(frame: &mut TypeFrame, operand: Operand) -> Result<Checked, NoMemory>
    ensures { IfOk result (λ c. (s : Site) (code : List ℕ) (i : model.Instr)
        → ChecksRow s (long_constant code i (operand_seen operand)) frame.old c frame.new) }
{
    match operand {
        Operand::Long(_) => check_push(frame, VarType::LongInteger),
        _ => Ok(OUT_OF_FORM),
    }
}

/// `anewarray`, whose array has one dimension more than what it names. No class file names a type of so many dimensions that there
/// are no more.
fn check_array_of(frame: &mut TypeFrame, component: ObjectKind) -> Result<Checked, NoMemory>
    ensures { IfOk result (λ c. (s : Site) → ChecksSite s (rows.NewReferences (kind_seen component)) frame.old c frame.new) }
{
    match component.dimensions.checked_add(1) {
        Some(dimensions) => check_new_array(
            frame,
            ObjectKind {
                dimensions,
                base: component.base,
            },
        ),
        None => Err(NoMemory),
    }
}

/// Constants and types of the pool.
#[tactic(auto, using(crate::proofs::ListedLemmas::lists_again, crate::proofs::ListedLemmas::lists_kept))]
fn check_named(
    lists: &mut LocalLists<'_>,
    frame: &mut TypeFrame,
    place: u32,
    operand: Operand,
    family: Named,
) -> Result<Checked, NoMemory>
    ensures lists { OnOk result (HasListsOf lists.old lists.new) }
    ensures checks { IfOk result (λ c. (s : Site) (code : List ℕ) (i : model.Instr) → s.place ≡ place → IsTyped s.program (operand_seen operand)
        → ChecksRowOver (lists_seen lists.old) (lists_seen lists.new) s (named_row family code i (operand_seen operand)) frame.old c frame.new) }
{
    match family {
        Named::Constant => check_constant(frame, operand),
        Named::LongConstant => check_long(frame, operand),
        Named::New => match class_meant(operand) {
            Some(_) => check_new(lists, frame, place),
            None => Ok(OUT_OF_FORM),
        },
        Named::NewArray => match operand {
            Operand::Type(kind) => check_array_of(frame, kind),
            _ => Ok(OUT_OF_FORM),
        },
        Named::Cast => match operand {
            Operand::Type(kind) => check_cast(frame, kind),
            _ => Ok(OUT_OF_FORM),
        },
        Named::Test => match operand {
            Operand::Type(kind) => check_test(frame, kind),
            _ => Ok(OUT_OF_FORM),
        },
    }
}

/// Static fields, of which this one is named.
fn check_static_field(
    checking: &Checking<'_>,
    frame: &mut TypeFrame,
    index: u32,
    writes: bool,
) -> Result<Checked, NoMemory>
    ensures { IfOk result (λ c. (s : Site) → s.program ≡ resolved checking.now.program.now → StandsAt checking.now.around s
        → ChecksSite s (if writes then rows.PutStatic index else rows.GetStatic index) frame.old c frame.new) }
{
    match static_type(checking.program, index) {
        Some(declared) if writes => Ok(check_put_static(&checking.around, frame, declared)),
        Some(declared) => check_get_static(frame, declared),
        None => Ok(OUT_OF_FORM),
    }
}

/// Instance fields, of which one is named: the class through which it is, the class that declares it, and its index there.
fn check_instance_field(
    checking: &Checking<'_>,
    frame: &mut TypeFrame,
    guarded: bool,
    field: (u32, u32, u32),
    writes: bool,
) -> Result<Checked, NoMemory>
    ensures { IfOk result (λ c. (s : Site) → s.program ≡ resolved checking.now.program.now → StandsAt checking.now.around s
        → s.program.guarded s.number s.place ≡ guarded → ChecksSite s (if writes then rows.PutField field.0 field.1 field.2 else rows.GetField field.0 field.1
        field.2) frame.old c frame.new) }
{
    let (named, owner, index) = field;
    let around = &checking.around;
    match instance_type(checking.program, owner, index) {
        Some(held) if writes => Ok(check_put_field(around, guarded, frame, named, owner, held)),
        Some(held) => check_get_field(around, guarded, frame, named, held),
        None => Ok(OUT_OF_FORM),
    }
}

/// Reading and writing of fields.
fn check_field(
    checking: &Checking<'_>,
    frame: &mut TypeFrame,
    x: &Instruction,
    family: Field,
) -> Result<Checked, NoMemory>
    ensures { IfOk result (λ c. (s : Site) (place : ℕ) (code : List ℕ) (i : model.Instr) (t : LocalTable) → IsAt t checking.now place x.now s
        → ChecksRowIn (lists_seen t) s (field_row family code i (operand_seen x.now.operand)) frame.old c frame.new) }
{
    match family {
        Field::GetStatic => match x.operand {
            Operand::Static(index) => check_static_field(checking, frame, index, false),
            _ => Ok(OUT_OF_FORM),
        },
        Field::PutStatic => match x.operand {
            Operand::Static(index) => check_static_field(checking, frame, index, true),
            _ => Ok(OUT_OF_FORM),
        },
        Field::Get => match x.operand {
            Operand::Field(named, owner, index) => {
                check_instance_field(checking, frame, x.guarded, (named, owner, index), false)
            }
            _ => Ok(OUT_OF_FORM),
        },
        Field::Put => match x.operand {
            Operand::Field(named, owner, index) => {
                check_instance_field(checking, frame, x.guarded, (named, owner, index), true)
            }
            _ => Ok(OUT_OF_FORM),
        },
    }
}

/// A call of the method of this number, which is named through the class `named`.
#[tactic(auto, using(crate::proofs::ListedLemmas::lists_again, crate::proofs::ListedLemmas::lists_kept))]
fn check_callee(
    checking: &Checking<'_>,
    lists: &mut LocalLists<'_>,
    frame: &mut TypeFrame,
    guarded: bool,
    method: (u32, u32),
    family: Call,
) -> Result<Checked, NoMemory>
    ensures lists { OnOk result (HasListsOf lists.old lists.new) }
    ensures checks { IfOk result (λ c. (s : Site) (code : List ℕ) (i : model.Instr) → s.program ≡ resolved checking.now.program.now
        → StandsAt checking.now.around s → s.program.guarded s.number s.place ≡ guarded → ChecksRowOver (lists_seen lists.old) (lists_seen
        lists.new) s (call_row family code i (AMethod method.0 method.1)) frame.old c frame.new) }
{
    let (named, number) = method;
    let around = &checking.around;
    let shape = match callee(checking.program, number) {
        Some(shape) => shape,
        None => return Ok(OUT_OF_FORM),
    };
    match family {
        Call::Static => check_static(around, frame, shape),
        Call::Special => check_special(around, lists, guarded, frame, named, shape),
        Call::Virtual => check_virtual(around, guarded, frame, named, shape),
        Call::Interface => check_virtual(around, guarded, frame, named, shape),
    }
}

/// Calls.
#[tactic(auto, using(crate::proofs::ListedLemmas::lists_again, crate::proofs::ListedLemmas::lists_kept))]
fn check_call(
    checking: &Checking<'_>,
    lists: &mut LocalLists<'_>,
    frame: &mut TypeFrame,
    x: &Instruction,
    family: Call,
) -> Result<Checked, NoMemory>
    ensures lists { OnOk result (HasListsOf lists.old lists.new) }
    ensures checks { IfOk result (λ c. (s : Site) (place : ℕ) (code : List ℕ) (i : model.Instr) → IsAt lists.old checking.now place x.now s
        → ChecksRowOver (lists_seen lists.old) (lists_seen lists.new) s (call_row family code i (operand_seen x.now.operand)) frame.old c frame.new) }
{
    match x.operand {
        Operand::Method(named, number) => {
            check_callee(checking, lists, frame, x.guarded, (named, number), family)
        }
        _ => Ok(OUT_OF_FORM),
    }
}

/// The frame at the target of a branch.
fn branch_target(maps: &MapFrames, place: u32, instr: Instr) -> Option<&TypeFrame>
    ensures { (ls : List (List typing.VarType)) → frame_at_seen ls result ≡ frame_over ls maps.now (natural (pos place +ℤ instr.first)) }
{
    target_of(maps, place, instr.first)
}

/// Branches, switches, `athrow` and returns.
fn check_leads(
    checking: &Checking<'_>,
    lists: &mut LocalLists<'_>,
    place: u32,
    frame: &mut TypeFrame,
    instr: &Instr,
    family: Leads,
) -> Checked
    requires decoded { decoded checking.now.code.now place ≡ Ok instr.now }
    requires small { length checking.now.code.now ≤ longest_file }
    ensures checks { (s : Site) (x : tables.Instruction) (o : program.Operand) → IsAt lists.old checking.now place x s
        → ChecksRowIn (lists_seen lists.old) s (leads_row family checking.now.code.now instr.now o) frame.old result frame.new }
    ensures kept { lists.new ≡ lists.old }
{
    let maps = checking.maps;
    match family {
        Leads::Branch(taken) => {
            check_branch(lists, frame, taken, branch_target(maps, place, *instr))
        }
        Leads::Same => check_same(lists, frame, branch_target(maps, place, *instr)),
        Leads::IsNull => check_null(lists, frame, branch_target(maps, place, *instr)),
        Leads::Jump => check_jump(lists, frame, branch_target(maps, place, *instr)),
        Leads::TableSwitch => check_switch(lists, maps, place, frame, checking.code, instr),
        Leads::LookupSwitch if instr.second < 0 => OUT_OF_FORM,
        Leads::LookupSwitch => check_switch(lists, maps, place, frame, checking.code, instr),
        Leads::Throw => check_throw(&checking.around, frame),
        Leads::Return(given) => check_return(&checking.around, frame, checking.result, given),
    }
}

/// The rules on the row of an instruction, and the frame behind it.
#[tactic(auto, using(crate::proofs::ListedLemmas::lists_again, crate::proofs::ListedLemmas::lists_kept))]
pub fn check_row(
    checking: &Checking<'_>,
    lists: &mut LocalLists<'_>,
    place: u32,
    frame: &mut TypeFrame,
    x: &Instruction,
) -> Result<Checked, NoMemory>
    requires decoded { decoded checking.now.code.now place ≡ Ok x.now.instr }
    requires small { length checking.now.code.now ≤ longest_file }
    ensures lists { OnOk result (HasListsOf lists.old lists.new) }
    ensures checks { IfOk result (λ c. (s : Site) → IsAt lists.old checking.now place x.now s
        → ChecksRowOver (lists_seen lists.old) (lists_seen lists.new) s (row_of checking.now.code.now x.now.instr
        (operand_seen x.now.operand)) frame.old c frame.new) }
{
    let instr = &x.instr;
    match family_of(instr.op) {
        Family::Unknown => Ok(OUT_OF_FORM),
        Family::Value(family) => check_value(lists, frame, checking.max_locals, instr, family),
        Family::Array(family) => check_array(frame, instr, family),
        Family::Named(family) => check_named(lists, frame, place, x.operand, family),
        Family::Field(family) => check_field(checking, frame, x, family),
        Family::Call(family) => check_call(checking, lists, frame, x, family),
        Family::Leads(family) => Ok(check_leads(checking, lists, place, frame, instr, family)),
    }
}
