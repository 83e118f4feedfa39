//! What the bytes of a linked image are linked to.
ghost use Rattle.std.specs.Prelude.{IfOk, IfErr};
ghost use Rattle.image_file.specs.Linked as file;
ghost use Rattle.jopizer.specs.Linked.{IsLinked, image_of};
ghost use Rattle.jopizer.specs.declared.fault.ImageFault.TheVariants.{Link};
ghost use Rattle.jopizer.specs.Images.{IsWrongImage};
ghost use Rattle.endings.specs.Opening.{BytesFault};

use crate::linking::not_linked;
use crate::outcome::{Ending, Refusal};
use image_file::{one_image, read_linked};
use jopizer::{ImageFault, LinkRefusal, Linked, read_image};
use std::alloc::Global;

/// The ending where this refuses the class files in the bytes of an image.
fn unlinked(alloc: Global, bytes: &[u8], refusal: LinkRefusal) -> Ending
    requires { IsWrongImage bytes.now (Link refusal) }
    ensures { BytesFault bytes.now result }
{
    // The law is for the proof.
    one_image();
    // The bytes are those of an image: they can't be read only where there is no memory.
    let Ok(image) = read_linked(alloc, bytes) else {
        return Ending::NoMemory;
    };
    not_linked(alloc, image.files(), refusal)
}

/// The ending where this is wrong with the bytes.
fn not_read(alloc: Global, bytes: &[u8], fault: ImageFault) -> Ending
    requires { IsWrongImage bytes.now fault }
    ensures { BytesFault bytes.now result }
{
    match fault {
        ImageFault::Bad => Ending::Refused(Refusal::BadImage),
        ImageFault::Link(refusal) => unlinked(alloc, bytes, refusal),
        ImageFault::Differs(word, kept, linked) => {
            Ending::Refused(Refusal::Differs(word, kept, linked))
        }
        ImageFault::NoMemory => Ending::NoMemory,
    }
}

/// What the bytes are linked to.
pub fn linked_of(alloc: Global, bytes: &[u8]) -> Result<Linked, Ending>
    ensures image { IfOk result (λ linked. file.IsLinkedFile bytes.now (image_of linked)) }
    ensures linked { IfOk result IsLinked }
    ensures fault { IfErr result (BytesFault bytes.now) }
{
    match read_image(alloc, bytes) {
        Ok(linked) => Ok(linked),
        Err(fault) => Err(not_read(alloc, bytes, fault)),
    }
}
