//! The words in front of an image: the header, and two lists of places.
ghost use Rattle.std.specs.Prelude.{◌≡◌, ◌++◌, ℕ, List, map, OnOk};
ghost use Rattle.std.specs.List.{range_with_len};
ghost use Rattle.class_pool.specs.declared.class.ClassFile.{ClassFile};
ghost use Rattle.image_facts.specs.Places.{pool_of};
ghost use Rattle.program_tables.specs.Resolved.{boot_of, resolved};
ghost use Rattle.image_words.specs.Layout.{type_place, outline_of};
ghost use Rattle.image_words.specs.Regions.{first_place, header_region, lists_region, front_of};
ghost use Rattle.image_words.specs.Outline.{IsOutline};

use base::NoMemory;
use class_lookup::Place;
use image_words::Outline;
use program_tables::laws::{members_are_there, methods_stand_by_number};
use resolved_program::Program;

/// The places of the two lists.
const ARRAYS: u32 = 16;

const RAISE_LIST: u32 = 24;

/// The method of the last class, which is run first.
fn boot_method(program: &Program) -> u32
    ensures { result ≡ boot_of program.now }
{
    let last = program.class_count().saturating_sub(1);
    program
        .method_number(Place {
            class: last,
            index: 0,
        })
        .unwrap_or(0)
}

/// The place of the pool of a method's class.
fn pool_of(program: &Program, outline: &Outline, method: u32) -> u32
    requires { IsOutline program.now outline.now }
    ensures { result ≡ pool_of (resolved program.now) (outline_of program.now) method }
{
    methods_stand_by_number();
    members_are_there();
    if method < program.method_count() {
        let place = program.method(method);
        outline.pool_place(place.class)
    } else {
        0
    }
}

/// The header.
fn add_header(words: &mut Vec<u32>, program: &Program, outline: &Outline) -> Result<(), NoMemory>
    requires { IsOutline program.now outline.now }
    ensures { OnOk result (words.new.items ≡ words.old.items ++ header_region program.now (outline_of program.now)) }
{
    let boot = boot_method(program);
    let place = outline.method_place(boot);
    let pool = pool_of(program, outline, boot);
    let types = program.type_count();
    let all = outline.objects.end;
    let header = [
        0, place, pool, types, RAISE_LIST, ARRAYS, all, 0, 0, 0, 0, 0, 0, 0, 0, 0,
    ];
    words.extend_from_slice(&header)?;
    Ok(())
}

/// The places of the first so many types.
pub(crate) fn add_type_places(
    words: &mut Vec<u32>,
    outline: &Outline,
    many: u32,
) -> Result<(), NoMemory>
    ensures { (cs : List ClassFile) → IsOutline cs outline.now
        → OnOk result (words.new.items ≡ words.old.items ++ map (type_place cs) (range_with_len 0 many)) }
{
    for number in 0..many {
        words.push(outline.type_place(number)?)?;
    }
    Ok(())
}

/// The places of the first so many objects.
fn add_object_places(words: &mut Vec<u32>, outline: &Outline, many: u32) -> Result<(), NoMemory>
    ensures { (cs : List ClassFile) → IsOutline cs outline.now
        → OnOk result (words.new.items ≡ words.old.items ++ map (first_place cs (outline_of cs)) (range_with_len 0 many)) }
{
    for object in 0..many {
        words.push(outline.object_place(object))?;
    }
    Ok(())
}

/// The places of the types of arrays of numbers, and of the objects that instructions raise.
fn add_lists(words: &mut Vec<u32>, program: &Program, outline: &Outline) -> Result<(), NoMemory>
    requires { IsOutline program.now outline.now }
    ensures { OnOk result (words.new.items ≡ words.old.items ++ lists_region program.now (outline_of program.now)) }
{
    // The contract alone speaks of it.
    let _ = program;
    add_type_places(words, outline, 8)?;
    add_object_places(words, outline, 9)?;
    Ok(())
}

/// What lies before the static fields: the header and the two lists.
pub(crate) fn add_front(
    words: &mut Vec<u32>,
    program: &Program,
    outline: &Outline,
) -> Result<(), NoMemory>
    requires { IsOutline program.now outline.now }
    ensures { OnOk result (words.new.items ≡ words.old.items ++ front_of program.now (outline_of program.now)) }
{
    add_header(words, program, outline)?;
    add_lists(words, program, outline)
}
