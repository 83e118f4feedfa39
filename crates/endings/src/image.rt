//! An image, opened once for all that is done with it.
ghost use Rattle.std.specs.Prelude.{IfOk, IfErr};
ghost use Rattle.endings.specs.Opening.{Opens, OpenFault, ImageFault};
ghost use Rattle.image_file.specs.Bare.{IsBareFile};

use crate::linked_image::linked_of;
use crate::outcome::{Ending, Refusal};
use jop_core::{Bare, BareFault, read_bare};
use jopizer::Linked;
use std::alloc::Global;

/// What the bytes of an image's file are.
#[derive(Drop)]
pub enum Image {
    /// One method of ints, without classes.
    Bare(Bare),
    /// A program that was linked, and its words.
    Linked(Linked),
}

/// The image that the bytes are.
pub fn image_of(alloc: Global, bytes: &[u8]) -> Result<Bare, Ending>
    ensures bare { IfOk result (IsBareFile bytes.now) }
    ensures fault { IfErr result (ImageFault bytes.now) }
{
    match read_bare(alloc, bytes) {
        Ok(bare) => Ok(bare),
        Err(BareFault::Bad) => Err(Ending::Refused(Refusal::BadImage)),
        Err(BareFault::NoMemory) => Err(Ending::NoMemory),
    }
}

/// The image that the bytes are. Those of a linked one begin with its mark.
pub fn open_image(alloc: Global, bytes: &[u8]) -> Result<Image, Ending>
    ensures opens { IfOk result (Opens bytes.now) }
    ensures fault { IfErr result (OpenFault bytes.now) }
{
    if bytes.starts_with(b"JOPI") {
        Ok(Image::Linked(linked_of(alloc, bytes)?))
    } else {
        Ok(Image::Bare(image_of(alloc, bytes)?))
    }
}
