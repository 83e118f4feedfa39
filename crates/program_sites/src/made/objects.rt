//! The words of objects.
ghost use Rattle.std.specs.Prelude.{◌≡◌, ◌≤◌, ◌<◌, length};
ghost use Rattle.program_sites.specs.Made.Making.{words_at, words_of};

use class_lookup::Place;
use program_tables::Declared;
use resolved_program::Program;

/// The words of the field at a place of a class's list of fields.
fn field_words(program: &Program, place: Place) -> u64
    ensures words { result ≡ words_at program.now place }
    ensures few { result ≤ 2 }
{
    match program.field_type(place) {
        Some(Declared::Long) => 2,
        Some(_) => 1,
        None => 0,
    }
}

/// The words of an object of the class: one for the class, and those of its fields.
pub(crate) fn object_words(program: &Program, class: u32) -> u64
    requires { class < length program.now }
    ensures { result ≡ words_of program.now class }
{
    let mut words = 1;
    for index in 0..program.instance_field_count(class) {
        words += field_words(program, program.instance_field(class, index));
    }
    words
}
