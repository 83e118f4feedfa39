//! The files of linked images, written and read. What is read is linked anew.
ghost use Rattle.std.specs.Prelude.{◌≡◌, ◌↔◌, length, Err, slice_get, MatchOption, IfOk, IfErr, OnOk};
ghost use Rattle.image_file.specs.Linked.{LinkedContent, IsWord};
ghost use Rattle.image_file.specs.Linked as file;
ghost use Rattle.jopizer.specs.Linked.{IsLinked, image_of};
ghost use Rattle.jopizer.specs.Images.{IsDifference, IsDifferent, IsUnlinked, IsWrongIn, IsWrongImage};
ghost use Rattle.jopizer.specs.declared.fault.ImageFault.TheVariants.{Bad};

use crate::fault::ImageFault;
use crate::linked::Linked;
use crate::linking::link_kept;
use crate::refusal::LinkRefusal;
use base::NoMemory;
use image_file::{LinkedFault, LinkedImage, read_linked, write_linked};
use std::alloc::Global;

/// The file of the image of what was linked.
pub fn write_image(alloc: Global, linked: &Linked) -> Result<Vec<u8>, NoMemory>
    ensures { IfOk result (λ bytes. file.IsLinkedFile bytes.items (image_of linked.now)) }
{
    write_linked(
        alloc,
        linked.main_name(),
        linked.layout().words(),
        linked.files(),
    )
}

/// The first place at which the words differ.
fn first_difference(kept: &[u32], linked: &[u32]) -> Option<usize>
    ensures { MatchOption result (kept.now ≡ linked.now) (λ place. IsDifference kept.now linked.now place (slice_get kept.now place)
        (slice_get linked.now place)) }
{
    let shared = kept.len().min(linked.len());
    for place in 0..shared {
        if kept[place] != linked[place] {
            return Some(place);
        }
    }
    if kept.len() == linked.len() {
        None
    } else {
        Some(shared)
    }
}

/// The word at a place, if there is one.
fn word_at(words: &[u32], place: usize) -> Option<u32>
    ensures { result ≡ slice_get words.now place }
{
    words.get(place).copied()
}

/// How the kept words differ from those that were linked.
fn difference(kept: &[u32], linked: &[u32]) -> Option<ImageFault>
    requires { IsWord (length kept.now) }
    ensures { MatchOption result (kept.now ≡ linked.now) (IsDifferent kept.now linked.now) }
{
    let place = first_difference(kept, linked)?;
    Some(ImageFault::Differs(place as u32, word_at(kept, place), word_at(linked, place)))
}

/// What was linked, if its words are those that were kept.
fn compared(kept: &[u32], linked: Linked) -> Result<Linked, ImageFault>
    requires { IsWord (length kept.now) }
    ensures same { IfOk result (λ same. same ≡ linked) }
    ensures words { OnOk result (kept.now ≡ linked.laid.words) }
    ensures differs { IfErr result (IsDifferent kept.now linked.laid.words) }
{
    match difference(kept, linked.layout().words()) {
        None => Ok(linked),
        Some(fault) => {
            drop(linked);
            Err(fault)
        }
    }
}

/// What the files of an image are linked to.
fn linked_anew(alloc: Global, files: Vec<Vec<u8>>, main_name: Vec<u8>) -> Result<Linked, ImageFault>
    requires { IsWord (length files.items) }
    ensures files { IfOk result (λ linked. linked.files ≡ file.contents files.items) }
    ensures main { IfOk result (λ linked. linked.main ≡ main_name.items) }
    ensures linked { IfOk result IsLinked }
    ensures refused { IfErr result (IsUnlinked (file.contents files.items) main_name.items) }
{
    match link_kept(alloc, files, main_name) {
        Ok(linked) => Ok(linked),
        Err(LinkRefusal::NoMemory) => Err(ImageFault::NoMemory),
        Err(refusal) => Err(ImageFault::Link(refusal)),
    }
}

/// What the files of an image are linked to, if this is that image.
fn relinked(alloc: Global, image: LinkedImage) -> Result<Linked, ImageFault>
    ensures image { IfOk result (λ linked. image_of linked ≡ image) }
    ensures linked { IfOk result IsLinked }
    ensures wrong { IfErr result (IsWrongIn image) }
{
    let (main_name, words, files) = image.into_parts();
    let linked = linked_anew(alloc, files, main_name)?;
    compared(&words, linked)
}

/// What was linked to the image of which the bytes are the file. Its class files are linked anew.
///
/// # Errors
///
/// [`ImageFault::Bad`] exactly where the bytes are the file of no image. Else what refuses its class files first. Else
/// [`ImageFault::Differs`], exactly where its words aren't those to which its class files are linked, with the first that differs.
pub fn read_image(alloc: Global, bytes: &[u8]) -> Result<Linked, ImageFault>
    ensures image { IfOk result (λ linked. file.IsLinkedFile bytes.now (image_of linked)) }
    ensures linked { IfOk result IsLinked }
    ensures bad { result ≡ Err Bad ↔ ((image : LinkedContent) → ¬ file.IsLinkedFile bytes.now image) }
    ensures wrong { IfErr result (IsWrongImage bytes.now) }
{
    match read_linked(alloc, bytes) {
        Ok(image) => relinked(alloc, image),
        Err(LinkedFault::Bad) => Err(ImageFault::Bad),
        Err(LinkedFault::NoMemory) => Err(ImageFault::NoMemory),
    }
}
