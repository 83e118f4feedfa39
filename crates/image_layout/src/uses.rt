//! What the instructions of a class name in its pool.
ghost use Rattle.std.specs.Prelude.{◌≡◌, ◌++◌, ◌∷◌, [], ◌+◌, ◌<◌, ◌≤◌, ◌^◌, ℕ, List, length, map, is_some, Some, IfOk, IfSome, OnOk, slice_get};
ghost use Rattle.std.specs.List.{range_with_len};
ghost use Rattle.base.specs.Sizes.{longest_file};
ghost use Rattle.class_pool.specs.declared.class.ClassFile.{ClassFile};
ghost use Rattle.class_pool.specs.Found.{code_of};
ghost use Rattle.opcodes.specs.declared.instruction.Instr.{Instr};
ghost use Rattle.program_tables.specs.Instructions as definitions;
ghost use Rattle.program_tables.specs.Tables.{HasFileLimits};
ghost use Rattle.image_words.specs.Pools.{instructions_in};
ghost use Rattle.image_words.specs.Outline.{IsOutline};
ghost use Rattle.image_layout.specs.Uses.{instr_of, use_of, again, fixed_place};

use base::NoMemory;
use class_pool::{ClassFile, Member};
use image_words::Outline;
use opcodes::laws::starts_follow_one_another;
use opcodes::mnemonics::{INVOKESPECIAL, INVOKESTATIC};
use opcodes::{Instr, starts};
use program_tables::{Named, Operand, entry_of, named_in, naming_at};
use resolved_program::Program;
use std::alloc::Global;

/// How instructions use an entry of a pool: whether one names it, and the place of the method that the first of them takes that
/// runs one without a selection.
#[derive(Clone, Copy)]
pub(crate) struct Use {
    pub(crate) named: bool,
    pub(crate) taken: Option<u32>,
}

/// The place of the method that an instruction of the class takes without a selection.
fn fixed_place(program: &Program, outline: &Outline, class: u32, instr: &Instr) -> Option<u32>
    requires outline { IsOutline program.now outline.now }
    requires class { class < length program.now }
    ensures { (k : ClassFile) → slice_get program.now class ≡ Some k
        → result ≡ fixed_place program.now class k instr.now }
{
    if instr.op == INVOKESPECIAL || instr.op == INVOKESTATIC {
        match program.operand(class, instr) {
            Operand::Method(_, method) => Some(outline.method_place(method)),
            _ => Some(0),
        }
    } else {
        None
    }
}

/// The use of an entry that one more instruction names.
fn used_again(before: Use, fixed: Option<u32>) -> Use
    ensures { result ≡ again before fixed }
{
    Use {
        named: true,
        taken: match before.taken {
            Some(place) => Some(place),
            None => fixed,
        },
    }
}

/// Whether an instruction of the class names an entry.
fn is_named(class: &ClassFile, instr: &Instr) -> bool
    requires { length class.now.pool < 2 ^ 16 }
    ensures { result ≡ is_some (definitions.named_in class.now instr.now) }
{
    match named_in(class, instr) {
        Some(Named::Constant(index)) => entry_of(&class.pool, u32::from(index)).is_some(),
        Some(Named::Class(_)) => true,
        Some(Named::Field(_, member)) => class.pool.name_and_type(member).is_some(),
        Some(Named::Method(_, member)) => class.pool.name_and_type(member).is_some(),
        Some(Named::InterfaceMethod(_, member)) => class.pool.name_and_type(member).is_some(),
        None => false,
    }
}

/// Notes what an instruction of the class names.
fn note_use(uses: &mut Vec<Use>, program: &Program, outline: &Outline, number: u32, instr: &Instr)
    requires outline { IsOutline program.now outline.now }
    requires class { number < length program.now }
    ensures { (k : ClassFile) (before : List Instr) (many : ℕ) → slice_get program.now number ≡ Some k
        → uses.old.items ≡ map (use_of program.now number k before) (range_with_len 0 many)
        → uses.new.items ≡ map (use_of program.now number k (before ++ instr.now ∷ [])) (range_with_len 0 many) }
{
    program.is_within_bounds();
    if !is_named(program.class(number), instr) {
        return;
    }
    let index = instr.first.unsigned_abs() as usize;
    if index >= uses.len() {
        return;
    }
    let fixed = fixed_place(program, outline, number, instr);
    uses[index] = used_again(uses[index], fixed);
}

/// So many entries that no instruction uses.
fn unused(alloc: Global, many: usize) -> Result<Vec<Use>, NoMemory>
    ensures { IfOk result (λ uses. (cs : List ClassFile) (c : ℕ) (k : ClassFile) → uses.items ≡ map (use_of cs c k []) (range_with_len 0 many)) }
{
    let mut uses = Vec::new(alloc);
    for _index in 0..many {
        uses.push(Use {
            named: false,
            taken: None,
        })?;
    }
    Ok(uses)
}

/// Notes what the instructions of a code of the class name, up to the first place from which it isn't a whole instruction.
fn note_code(
    uses: &mut Vec<Use>,
    alloc: Global,
    program: &Program,
    outline: &Outline,
    number: u32,
    code: &[u8],
) -> Result<(), NoMemory>
    requires outline { IsOutline program.now outline.now }
    requires class { number < length program.now }
    requires small { length code.now ≤ longest_file }
    ensures { OnOk result ((k : ClassFile) (before : List Instr) (many : ℕ) → slice_get program.now number ≡ Some k
        → uses.old.items ≡ map (use_of program.now number k before) (range_with_len 0 many)
        → uses.new.items ≡ map (use_of program.now number k (before ++ map instr_of (definitions.instructions_in code.now))) (range_with_len 0 many)) }
{
    starts_follow_one_another();
    let starts = starts(alloc, code)?;
    for pc in &starts {
        if let Some(instr) = naming_at(code, *pc) {
            note_use(uses, program, outline, number, &instr);
        }
    }
    Ok(())
}

/// Notes what the instructions of a method of the class name.
fn note_method(
    uses: &mut Vec<Use>,
    alloc: Global,
    program: &Program,
    outline: &Outline,
    number: u32,
    method: &Member,
) -> Result<(), NoMemory>
    requires outline { IsOutline program.now outline.now }
    requires class { number < length program.now }
    requires small { IfSome (code_of method.now) (λ k. length k.code ≤ longest_file) }
    ensures { OnOk result ((k : ClassFile) (before : List Instr) (many : ℕ) → slice_get program.now number ≡ Some k
        → uses.old.items ≡ map (use_of program.now number k before) (range_with_len 0 many)
        → uses.new.items ≡ map (use_of program.now number k (before ++ map instr_of (definitions.instructions_of method.now))) (range_with_len 0 many)) }
{
    match method.code() {
        Some(code) => note_code(uses, alloc, program, outline, number, code.code.as_slice()),
        None => Ok(()),
    }
}

/// How the instructions of a class use the entries of its pool, by index, from 0 on.
pub(crate) fn uses_of(
    alloc: Global,
    program: &Program,
    outline: &Outline,
    number: u32,
) -> Result<Vec<Use>, NoMemory>
    requires outline { IsOutline program.now outline.now }
    requires class { number < length program.now }
    ensures { IfOk result (λ uses. (k : ClassFile) → slice_get program.now number ≡ Some k
        → uses.items ≡ map (use_of program.now number k (map instr_of (instructions_in k))) (range_with_len 0 (1 + length k.pool))) }
{
    program.is_within_bounds();
    let class = program.class(number);
    let mut uses = unused(alloc, class.pool.entries().len() + 1)?;
    for method in class.methods.as_slice() {
        note_method(&mut uses, alloc, program, outline, number, method)?;
    }
    Ok(uses)
}
