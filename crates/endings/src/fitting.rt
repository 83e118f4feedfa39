//! Whether a machine with these settings holds an image, and how it ends where it doesn't.
ghost use Rattle.std.specs.Prelude.{◌<◌, ◌≤◌, length, IfNone, IfSome};
ghost use Rattle.program_tables.specs.Numbers.{methods_by_number};
ghost use Rattle.command_line.specs.Range.{AreSettings};
ghost use Rattle.endings.specs.Fitting.{CodesFit, IsTooLongAs, IsUnheld, blocks_of_code, EndsTooLong};

use crate::outcome::{Ending, Refusal};
use crate::settings::{blocks_of, words_of};
use command_line::Settings;
use jop_core::Bare;
use jopizer::Linked;
use jopizer::methods::first_too_long;
use name_laws::written_name;
use program_tables::laws::methods_stand_by_number;
use resolved_program::Program;
use std::alloc::Global;

/// The ending where this method's code doesn't fit the method cache.
fn too_long(alloc: Global, program: &Program, method: u32, blocks: u32, limit: u32) -> Ending
    requires { method < length (methods_by_number program.now) }
    ensures { IsTooLongAs program.now method blocks limit result }
{
    match written_name(alloc, program, method) {
        Ok(name) => Ending::TooLong(method, name, blocks, limit),
        Err(_) => Ending::NoMemory,
    }
}

/// The ending where a machine with these settings doesn't hold what was linked. The first method whose code doesn't fit the method cache
/// is told before the memory is looked at.
pub fn unheld(alloc: Global, linked: &Linked, settings: &Settings) -> Option<Ending>
    requires { AreSettings settings.now }
    ensures codes { IfNone result (CodesFit settings.now linked.now) }
    ensures memory { IfNone result (length linked.now.laid.words ≤ settings.now.memory) }
    ensures ending { IfSome result (IsUnheld settings.now linked.now) }
{
    // The law is for the proof.
    methods_stand_by_number();
    let program = linked.program().program();
    if let Some(long) = first_too_long(program, settings.blocks, settings.block_words) {
        let ending = too_long(alloc, program, long.method, long.blocks, settings.blocks);
        return Some(ending);
    }
    let words = words_of(linked);
    if words > settings.memory {
        let refusal = Refusal::MemoryTooSmall(words, settings.memory);
        return Some(Ending::Refused(refusal));
    }
    None
}

/// How it ends where the code of a bare image takes more blocks than the method cache has.
pub fn too_long_ending(image: &Bare, settings: &Settings) -> Option<Ending>
    requires { AreSettings settings.now }
    ensures long { IfSome result (EndsTooLong settings.now image.now) }
    ensures fits { IfNone result (blocks_of_code settings.now image.now ≤ settings.now.blocks) }
{
    let blocks = blocks_of(image, settings.block_words);
    if blocks > settings.blocks {
        Some(Ending::Refused(Refusal::MethodTooLong(0, blocks, settings.blocks)))
    } else {
        None
    }
}
