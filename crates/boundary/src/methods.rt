//! The methods that a run knows.
ghost use Rattle.std.specs.Prelude.{◌≡◌, length};
ghost use Rattle.image_file.specs.Bare.{IsBareContent};
ghost use Rattle.image_facts.specs.Methods.{AreMethods};
ghost use Rattle.image_facts.specs.Places.{bare_places};
ghost use Rattle.machine_stands.specs.Bare.{program_of};
ghost use Rattle.boundary.specs.Meaning.{methods_of};

use image_facts::CodedMethod;
use jop_core::Bare;
use std::slice::from_ref;

/// The methods of a program that have code.
#[derive(Clone, Copy)]
pub enum Methods<'a> {
    /// That of a bare image.
    One(CodedMethod<'a>),
    /// Those of a linked program, by number.
    All(&'a [CodedMethod<'a>]),
}

impl<'a> Methods<'a> {
    /// The method of a bare image, which has no words: it is at place 0.
    pub fn of_bare(image: &'a Bare) -> Self
        ensures methods { AreMethods (program_of image.now) bare_places (methods_of result) }
        ensures image { IsBareContent image.now }
        ensures one { length (methods_of result) ≡ 1 }
    {
        Methods::One(CodedMethod {
            place: 0,
            max_locals: image.max_locals(),
            code: image.code(),
        })
    }

    /// By number.
    pub fn as_slice(&self) -> &[CodedMethod<'a>]
        ensures { result.now ≡ methods_of self.now }
    {
        match self {
            Methods::One(method) => from_ref(method),
            Methods::All(methods) => methods,
        }
    }
}
