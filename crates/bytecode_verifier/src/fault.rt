//! Why a program isn't verified (JVM Specification SE 8, 4.7.3, 4.7.4 and 4.10.1).

use resolved_program::Program;
use verifier_types::Rule;

/// The rules of a method in the order in which they are tried.
#[derive(Clone, Copy)]
pub enum MethodRule {
    /// From the place on the code isn't a whole instruction.
    Opcode,
    /// An entry of the exception table that starts at the place is out of its form.
    Table,
    /// The StackMapTable is no list of frames, or its frame at the place doesn't fit the code; at place 0, the first frame passes
    /// the local variables.
    Map,
    /// A rule of the walk over the instructions.
    Walk(Rule),
}

/// Why a program isn't verified. Both give it back.
#[derive(Drop)]
pub enum VerifyFault {
    /// The least number of a method that breaks a rule, the place and the rule that fails there first, and the program.
    At(u32, u32, MethodRule, Program),
    /// There was no memory.
    NoMemory(Program),
}
