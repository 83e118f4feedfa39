//! How large an image may be.
ghost use Rattle.std.specs.Prelude.{◌≡◌, ℕ, length, Some, None, Err, IfOk, OnOk};
ghost use Rattle.image_builder.specs.declared.fault.Counted.{Counted};
ghost use Rattle.image_builder.specs.declared.fault.LayFault.TheVariants.{TooLarge};
ghost use Rattle.image_words.specs.Limits.{coded_methods};
ghost use Rattle.image_words.specs.Outline.{IsOutline};
ghost use Rattle.image_words.specs.Regions.{image_words_of};
ghost use Rattle.image_words.specs.Slots.{interface_methods};
ghost use Rattle.image_layout.specs.Layout.{counts_passed, first_passed};

use crate::tables::is_coded;
use base::NoMemory;
use base::laws::packed_has_words;
use image_builder::{Counted, LayFault, within};
use image_facts::image_words_grow;
use image_words::laws::image_words_lie;
use image_words::{Outline, interface_methods};
use program_laws::laws::resolved_programs_are_lawful;
use resolved_program::Program;
use std::alloc::Global;

const MOST_TYPES: u64 = 2048;

const MOST_INTERFACE_METHODS: u64 = 512;

const MOST_METHODS: u64 = 65535;

/// How many words an image has at most.
const MOST_WORDS: u64 = 1048576;

/// How many methods of the program have code.
pub fn coded_methods(program: &Program) -> u32
    ensures { result ≡ coded_methods program.now }
{
    let mut coded = 0;
    for method in 0..program.method_count() {
        let place = program.method(method);
        if is_coded(program.hierarchy().classes(), place) {
            coded += 1;
        }
    }
    coded
}

/// How many methods of interfaces the program has.
fn interface_method_count(alloc: Global, program: &Program) -> Result<u64, NoMemory>
    ensures { IfOk result (λ count. count ≡ length (interface_methods program.now)) }
{
    let methods = interface_methods(alloc, program.hierarchy().classes())?;
    Ok(methods.len() as u64)
}

/// Refuses a program that has too many types, methods of interfaces or methods with code.
pub(crate) fn within_counts(alloc: Global, program: &Program) -> Result<(), LayFault>
    ensures within { OnOk result (counts_passed program.now ≡ None) }
    ensures too_large { (what : Counted) (count limit : ℕ) → result ≡ Err (TooLarge what count limit) → counts_passed program.now ≡ Some (what, count, limit) }
{
    within(Counted::Types, u64::from(program.type_count()), MOST_TYPES)?;
    let methods = interface_method_count(alloc, program)?;
    within(Counted::InterfaceMethods, methods, MOST_INTERFACE_METHODS)?;
    let coded = u64::from(coded_methods(program));
    within(Counted::Methods, coded, MOST_METHODS)?;
    Ok(())
}

/// How many words the image has.
fn count_words(program: &Program, outline: &Outline) -> u64
    requires { IsOutline program.now outline.now }
    ensures { result ≡ length (image_words_of program.now) }
{
    packed_has_words();
    image_words_grow();
    image_words_lie();
    resolved_programs_are_lawful();
    program.is_resolved();
    u64::from(outline.objects.end)
}

/// Refuses a program whose image has too many words, where it passes no limit that is counted before.
pub(crate) fn within_words(program: &Program, outline: &Outline) -> Result<(), LayFault>
    requires outline { IsOutline program.now outline.now }
    requires counts { counts_passed program.now ≡ None }
    ensures within { OnOk result (first_passed program.now ≡ None) }
    ensures too_large { (what : Counted) (count limit : ℕ) → result ≡ Err (TooLarge what count limit) → first_passed program.now ≡ Some (what, count, limit) }
{
    within(Counted::Words, count_words(program, outline), MOST_WORDS)
}
