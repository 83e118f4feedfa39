//! The classes that `new` names (JVM Specification SE 8, 4.10.1.4 and 6.5.new).
ghost use Rattle.std.specs.Prelude.{◌≡◌, ◌<◌, ℕ, List, length};
ghost use Rattle.opcodes.specs.declared.instruction.Instr as instr;
ghost use Rattle.bytecode_model.specs.Lists.{onto};
ghost use Rattle.bytecode_typing.specs.Checks.{class_made_by, made_at};
ghost use Rattle.program_tables.specs.Meanings.{operand_seen};
ghost use Rattle.program_tables.specs.Numbers.{methods_by_number};
ghost use Rattle.program_tables.specs.Resolved.{resolved};
ghost use Rattle.bytecode_verifier.specs.Family.{named_row};

use crate::family::{Family, Named, family_of};
use crate::members::class_meant;
use program_tables::Operand;
use resolved_program::Program;

/// The class that an instruction of the family makes an object of, if it does.
fn made_by(named: Named, operand: Operand) -> Option<u32>
    ensures { (code : List ℕ) (i : instr.Instr) → result ≡ onto (named_row named code i (operand_seen operand)) class_made_by }
{
    match named {
        Named::New => class_meant(operand),
        Named::Constant => None,
        Named::LongConstant => None,
        Named::NewArray => None,
        Named::Cast => None,
        Named::Test => None,
    }
}

/// The class that the `new` at a place of a method names.
pub fn made_at(program: &Program, method: u32, place: u32) -> Option<u32>
    requires { method < length (methods_by_number program.now) }
    ensures { result ≡ made_at (resolved program.now) method place }
{
    let x = program.instruction(method, place)?;
    match family_of(x.instr.op) {
        Family::Named(named) => made_by(named, x.operand),
        Family::Unknown => None,
        Family::Value(_) => None,
        Family::Array(_) => None,
        Family::Field(_) => None,
        Family::Call(_) => None,
        Family::Leads(_) => None,
    }
}
