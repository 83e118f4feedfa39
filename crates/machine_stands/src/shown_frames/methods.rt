//! Methods by the place of their record.
ghost use Rattle.machine_stands.specs.ShownFrames.Methods.{IsThere, IsNumberAt, IsMethodAt};

use image_facts::{CodedMethod, number_at};

/// The number of the method whose record lies at a place.
pub fn number_of(methods: &[CodedMethod<'_>], place: u32) -> u32
    requires { IsThere methods.now place }
    ensures { IsNumberAt methods.now place result }
{
    match number_at(methods, place) {
        Some(number) => number,
        None => unreachable!(),
    }
}

/// The method whose record lies at a place.
pub fn method_at<'a>(methods: &[CodedMethod<'a>], place: u32) -> CodedMethod<'a>
    requires { IsThere methods.now place }
    ensures { IsMethodAt methods.now place result }
{
    methods[number_of(methods, place) as usize]
}
