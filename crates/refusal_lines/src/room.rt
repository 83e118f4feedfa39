//! Room for the longest name.
ghost use Rattle.std.specs.Prelude.{◌≡◌, ◌≤◌, ℕ, length, slice_get, IfOk, IfSome, [], vec_capacity};
ghost use Rattle.class_lookup.specs.Parts.{name_of};
ghost use Rattle.refusal_lines.specs.Room.{HasRoom};

use base::NoMemory;
use class_lookup::parts::name_of;
use resolved_program::Program;
use std::alloc::Global;

/// How many units the longest name of a class has.
fn longest_name(program: &Program) -> usize
    ensures { (c : ℕ) → IfSome (slice_get program.now c) (λ k. length (name_of k) ≤ result) }
{
    let mut longest = 0;
    for number in 0..program.class_count() {
        longest = longest.max(name_of(program.class(number)).len());
    }
    longest
}

/// Room for what is written of the name of any class of the program, at most four bytes a unit. The only error is that there was no
/// memory.
pub fn name_room(alloc: Global, program: &Program) -> Result<Vec<u8>, NoMemory>
    ensures room { IfOk result (λ room. HasRoom program.now (vec_capacity room)) }
    ensures empty { IfOk result (λ room. room.items ≡ []) }
{
    match longest_name(program).checked_mul(4) {
        Some(bytes) => Ok(Vec::with_capacity(alloc, bytes)?),
        None => Err(NoMemory),
    }
}
