//! The law of the definitions in `specs/`. The function does nothing; a caller whose proof needs the law calls it.
ghost use Rattle.refusal_lines.specs.Laws.{MissingInProgram};

use core_classes::laws::{boot_says_plan, core_is_named};

/// The classes that aren't there, as names are told, are those that the program of the files doesn't have, for want of which linking
/// refuses them.
pub fn missing_in_program()
    ensures { MissingInProgram }
{
    core_is_named();
    boot_says_plan();
}
