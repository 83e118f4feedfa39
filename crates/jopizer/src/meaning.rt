//! What the bytecode of a verified program means (JVM Specification SE 8, chapters 2 and 6, and 4.10): its values, objects, frames
//! and states, and that no state of it gets stuck. The definitions stand in `bytecode_model` and `bytecode_typing`.

ghost use Rattle.program_tables.specs.Resolved.{resolved};
ghost use Rattle.bytecode_verifier.specs.Failure.{types_found};
ghost use Rattle.jopizer.specs.Meaning.Meaning.{Keeps, Runs, Begins};

mod frames;

pub use bytecode_model::{Ending, Frame, Object, State, Value};
use bytecode_typing::{the_boot_state_fits, typed_programs_keep, typed_runs_fit};
use bytecode_verifier::Verified;
pub use frames::readings_agree;

/// In a verified program each state that fits the frames of types and hasn't ended has a next state, whatever the input answers,
/// and that fits too; so does each state of a run from one that fits; and the state in which the program begins fits, where the
/// frames' words have room for boot's. It does nothing; a caller whose proof needs the law calls it.
pub fn keeps(v: &Verified)
    ensures keeps { Keeps (resolved v.now) (types_found v.now) }
    ensures runs { Runs (resolved v.now) (types_found v.now) }
    ensures begins { Begins (resolved v.now) (types_found v.now) }
{
    v.is_typed();
    typed_programs_keep();
    typed_runs_fit();
    the_boot_state_fits();
}
