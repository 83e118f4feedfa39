//! What stands around an instruction.
ghost use Rattle.std.specs.Prelude.{◌≡◌, ◌<◌, length};
ghost use Rattle.program_tables.specs.Numbers.{methods_by_number};

use class_hierarchy::Hierarchy;
use resolved_program::Program;

/// The method of an instruction: its program, the classes of that, its number, the number of its own class, and whether it is an
/// instance initialization method.
#[derive(Drop)]
pub struct Around<'a> {
    pub program: &'a Program,
    pub classes: &'a Hierarchy,
    pub number: u32,
    pub owner: u32,
    pub is_init: bool,
    ghost same: { classes.now ≡ program.now },
    ghost there: { number < length (methods_by_number program.now) },
}
