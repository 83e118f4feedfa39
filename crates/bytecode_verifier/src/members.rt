//! What the operands of instructions name among the members of a program (JVM Specification SE 8, 5.4.3).
ghost use Rattle.std.specs.Prelude.{◌≡◌, ℕ, List, slice_get};
ghost use Rattle.std.specs.Option.{option_map};
ghost use Rattle.opcodes.specs.declared.instruction.Instr.{Instr};
ghost use Rattle.bytecode_model.specs.Rows as rows;
ghost use Rattle.bytecode_model.specs.Table.{by_class};
ghost use Rattle.program_tables.specs.Meanings.{operand_seen, declared_seen};
ghost use Rattle.program_tables.specs.Resolved.{resolved};
ghost use Rattle.bytecode_verifier.specs.Checking.{IsShapeOf};

use descriptors::laws::field_descriptors;
use program_tables::laws::methods_stand_by_number;
use program_tables::{Base, Declared, MethodShape, Operand};
use resolved_program::Program;

/// What the static field of this index holds, if there is one.
pub fn static_type(program: &Program, index: u32) -> Option<Declared>
    ensures { option_map declared_seen result ≡ slice_get (resolved program.now).statics index }
{
    field_descriptors();
    program.is_resolved();
    if index < program.static_count() {
        program.field_type(program.static_field(index))
    } else {
        None
    }
}

/// What the instance field of this index among those of a class holds, if there is one.
pub fn instance_type(program: &Program, class: u32, index: u32) -> Option<Declared>
    ensures { option_map declared_seen result ≡ slice_get ((resolved program.now).fields class) index }
{
    field_descriptors();
    program.is_resolved();
    if class < program.class_count() && index < program.instance_field_count(class) {
        program.field_type(program.instance_field(class, index))
    } else {
        None
    }
}

/// The method of this number, if there is one.
pub fn callee(program: &Program, number: u32) -> Option<&MethodShape>
    ensures { IsShapeOf result (slice_get (resolved program.now).methods number) }
{
    methods_stand_by_number();
    if number < program.method_count() {
        Some(program.shape(number))
    } else {
        None
    }
}

/// The class that an operand is, if it is one.
pub fn class_meant(operand: Operand) -> Option<u32>
    ensures { (code : List ℕ) (i : Instr) → option_map rows.New result ≡ by_class rows.New code i (operand_seen operand) }
{
    match operand {
        Operand::Type(kind) => match kind.base {
            Base::Class(class) if kind.dimensions == 0 => Some(class),
            _ => None,
        },
        _ => None,
    }
}
