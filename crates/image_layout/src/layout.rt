//! The image of a program, within its limits.
ghost use Rattle.std.specs.Prelude.{◌≡◌, ◌++◌, ℕ, length, map, Some, None, Err, IfOk, OnOk};
ghost use Rattle.std.specs.List.{range_with_len};
ghost use Rattle.program_tables.specs.Numbers.{fields_by_number, strings_of, types_of};
ghost use Rattle.program_tables.specs.Operands.{string_object};
ghost use Rattle.image_builder.specs.declared.fault.Counted.{Counted};
ghost use Rattle.image_builder.specs.declared.fault.LayFault.TheVariants.{TooLarge};
ghost use Rattle.image_layout.specs.Layout.{IsLaidOut, counts_passed, first_passed};
ghost use Rattle.image_words.specs.Outline.{IsOutline};
ghost use Rattle.image_words.specs.Layout.{type_place, outline_of};
ghost use Rattle.image_words.specs.Pools.{static_word};
ghost use Rattle.image_words.specs.Regions.{first_place, middle_of, raised_region, strings_region, image_words_of};

use crate::entries::{add_pools, static_word};
use crate::front::{add_front, add_type_places};
use crate::limits::{within_counts, within_words};
use crate::methods::add_methods;
use crate::outline::outline_of;
use crate::statics::add_statics;
use crate::tables::{add_interfaces, add_tables};
use base::NoMemory;
use base::laws::packed_has_words;
use image_builder::{LayFault, Layout};
use image_words::{Outline, add_raised, add_strings, add_types};
use resolved_program::Program;
use std::alloc::Global;

/// What lies between the static fields and the objects: the types, their tables, the pools and the methods with code.
fn add_middle(
    words: &mut Vec<u32>,
    alloc: Global,
    program: &Program,
    outline: &Outline,
) -> Result<(), NoMemory>
    requires { IsOutline program.now outline.now }
    ensures { OnOk result (words.new.items ≡ words.old.items ++ middle_of program.now (outline_of program.now)) }
{
    program.is_resolved();
    add_types(words, program.hierarchy(), program.kinds(), outline)?;
    add_tables(words, alloc, program, outline)?;
    add_interfaces(words, alloc, program, outline)?;
    add_pools(words, alloc, program, outline)?;
    add_methods(words, program, outline)
}

/// The objects that instructions raise, and the strings.
fn add_objects(words: &mut Vec<u32>, program: &Program, outline: &Outline) -> Result<(), NoMemory>
    requires { IsOutline program.now outline.now }
    ensures { OnOk result (words.new.items ≡ words.old.items
        ++ (raised_region program.now (outline_of program.now) ++ strings_region program.now (outline_of program.now))) }
{
    program.is_resolved();
    add_raised(words, outline)?;
    add_strings(words, program.strings(), outline)
}

/// The words, region by region.
fn words_of(alloc: Global, program: &Program, outline: &Outline) -> Result<Vec<u32>, NoMemory>
    requires { IsOutline program.now outline.now }
    ensures { IfOk result (λ words. words.items ≡ image_words_of program.now) }
{
    let mut words = Vec::new(alloc);
    add_front(&mut words, program, outline)?;
    add_statics(&mut words, program, outline)?;
    add_middle(&mut words, alloc, program, outline)?;
    add_objects(&mut words, program, outline)?;
    Ok(words)
}

/// The places of the types, by number.
fn type_places(alloc: Global, program: &Program, outline: &Outline) -> Result<Vec<u32>, NoMemory>
    requires { IsOutline program.now outline.now }
    ensures { IfOk result (λ places. places.items ≡ map (type_place program.now) (range_with_len 0 (length (types_of program.now)))) }
{
    let mut places = Vec::new(alloc);
    add_type_places(&mut places, outline, program.type_count())?;
    Ok(places)
}

/// The places of the static fields among all fields, 0 for the others.
fn field_places(alloc: Global, program: &Program, outline: &Outline) -> Result<Vec<u32>, NoMemory>
    requires { IsOutline program.now outline.now }
    ensures { IfOk result (λ places. places.items ≡ map (static_word program.now (outline_of program.now)) (fields_by_number program.now)) }
{
    let mut places = Vec::new(alloc);
    for number in 0..program.field_count() {
        let field = program.field(number);
        places.push(static_word(program, outline, field))?;
    }
    Ok(places)
}

/// The places of the strings.
fn string_places(alloc: Global, program: &Program, outline: &Outline) -> Result<Vec<u32>, NoMemory>
    requires { IsOutline program.now outline.now }
    ensures { IfOk result (λ places. places.items ≡ map (λ n. first_place program.now (outline_of program.now) (string_object n))
        (range_with_len 0 (length (strings_of program.now)))) }
{
    let mut places = Vec::new(alloc);
    for string in 0..program.strings().count() {
        places.push(outline.object_place(9 + 2 * string + 1))?;
    }
    Ok(places)
}

/// The words of an image, and the places that its outline has no list of.
#[derive(Drop)]
struct Written {
    words: Vec<u32>,
    types: Vec<u32>,
    fields: Vec<u32>,
    strings: Vec<u32>,
}

/// What is written by an outline, unless it has too many words.
fn write_image(alloc: Global, program: &Program, outline: &Outline) -> Result<Written, LayFault>
    requires outline { IsOutline program.now outline.now }
    requires counts { counts_passed program.now ≡ None }
    ensures words { IfOk result (λ made. made.words.items ≡ image_words_of program.now) }
    ensures types { IfOk result (λ made. made.types.items ≡ map (type_place program.now) (range_with_len 0 (length (types_of program.now)))) }
    ensures fields { IfOk result (λ made. made.fields.items ≡ map (static_word program.now (outline_of program.now)) (fields_by_number program.now)) }
    ensures strings { IfOk result (λ made. made.strings.items ≡ map (λ n. first_place program.now (outline_of program.now) (string_object n))
        (range_with_len 0 (length (strings_of program.now)))) }
    ensures within { OnOk result (first_passed program.now ≡ None) }
    ensures too_large { (what : Counted) (count limit : ℕ) → result ≡ Err (TooLarge what count limit) → first_passed program.now ≡ Some (what, count, limit) }
{
    within_words(program, outline)?;
    let words = words_of(alloc, program, outline)?;
    let types = type_places(alloc, program, outline)?;
    let fields = field_places(alloc, program, outline)?;
    let strings = string_places(alloc, program, outline)?;
    Ok(Written {
        words,
        types,
        fields,
        strings,
    })
}

/// The layout of what is written by an outline.
fn layout_of(outline: Outline, written: Written) -> Layout
    ensures { result ≡ record {
      words = written.words.items;
      methods = outline.methods.places.items;
      types = written.types.items;
      pools
          = outline.pools.places.items;
      fields = written.fields.items;
      strings = written.strings.items;
    } }
{
    Layout {
        words: written.words,
        methods: outline.methods.places,
        types: written.types,
        pools: outline.pools.places,
        fields: written.fields,
        strings: written.strings,
    }
}

/// The image of a program. It has none where it passes a limit: the first of these is told.
pub fn lay_out(alloc: Global, program: &Program) -> Result<Layout, LayFault>
    ensures made { IfOk result (IsLaidOut program.now) }
    ensures within { OnOk result (first_passed program.now ≡ None) }
    ensures too_large { (what : Counted) (count limit : ℕ) → result ≡ Err (TooLarge what count limit) → first_passed program.now ≡ Some (what, count, limit) }
{
    packed_has_words();
    within_counts(alloc, program)?;
    let outline = outline_of(alloc, program)?;
    let written = write_image(alloc, program, &outline)?;
    Ok(layout_of(outline, written))
}
