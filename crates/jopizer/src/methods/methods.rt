//! The methods that have code.
ghost use Rattle.std.specs.Prelude.{IfOk};
ghost use Rattle.image_facts.specs.Methods.{AreMethods};
ghost use Rattle.program_tables.specs.Resolved.{resolved};
ghost use Rattle.image_words.specs.Regions.{places_of};
ghost use Rattle.jopizer.specs.Methods.Placed.{AreOnly, ArePlaced};

use base::NoMemory;
use image_builder::Layout;
use image_facts::CodedMethod;
use program_tables::laws::methods_stand_by_number;
use resolved_program::Program;
use std::alloc::Global;

/// The methods of a program that have code, by number, with their places in its image.
pub fn methods_of<'a>(
    alloc: Global,
    program: &'a Program,
    layout: &Layout,
) -> Result<Vec<CodedMethod<'a>>, NoMemory>
    requires { ArePlaced program.now layout.now.methods }
    ensures methods { IfOk result (λ methods. AreMethods (resolved program.now) (places_of program.now) methods.items) }
    ensures no_others { IfOk result (λ methods. AreOnly program.now methods.items) }
{
    // The law is for the proof.
    methods_stand_by_number();
    let mut methods = Vec::new(alloc);
    for number in 0..program.method_count() {
        // Those without code come last.
        let Some(code) = program.code(number) else {
            return Ok(methods);
        };
        methods.push(CodedMethod {
            place: layout.method_place(number),
            max_locals: code.max_locals,
            code: code.code.as_slice(),
        })?;
    }
    Ok(methods)
}
