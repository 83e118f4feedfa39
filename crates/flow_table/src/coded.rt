//! Which methods have code.
ghost use Rattle.std.specs.Prelude.{◌↔◌, ℕ, ◌<◌, IsSome};
ghost use Rattle.bytecode_model.specs.Program.{body_of};
ghost use Rattle.program_tables.specs.Resolved.{resolved};

use program_tables::laws::methods_stand_by_number;
use resolved_program::Program;

/// How many methods have code: they have the first numbers.
pub(crate) fn coded_count(program: &Program) -> u32
    ensures { (m : ℕ) → IsSome (body_of (resolved program.now) m) ↔ (m < result) }
{
    methods_stand_by_number();
    for number in 0..program.method_count() {
        // Those without code come last.
        if program.code(number).is_none() {
            return number;
        }
    }
    program.method_count()
}
