//! What instructions put to a field, one put after another.

ghost use Rattle.std.specs.Prelude.{◌≡◌, IfOk};
ghost use Rattle.array_fields.specs.Contents.{met, met_at};
ghost use Rattle.array_fields.specs.Puts.{AreContents, field_target, static_target};

use crate::puts::Put;
use crate::rows::Field;
use base::NoMemory;
use std::alloc::Global;

/// What is put to a field.
#[derive(Clone, Copy)]
pub(crate) enum Content {
    /// Nothing.
    Unput,
    /// Null or arrays of so many elements.
    Arrays(i32),
    /// Anything else.
    Anything,
}

/// The same where null or an array of so many elements is put too, or what isn't known.
fn met(content: Content, length: Option<i32>) -> Content
    ensures { result ≡ met content length }
{
    match (content, length) {
        (Content::Unput, Some(length)) => Content::Arrays(length),
        (Content::Arrays(known), Some(length)) => {
            if known == length {
                content
            } else {
                Content::Anything
            }
        }
        _ => Content::Anything,
    }
}

/// Puts to the field of an index, where there is one.
fn meet_at(contents: &mut Vec<Content>, index: Option<u32>, length: Option<i32>)
    ensures { contents.new.items ≡ met_at contents.old.items index length }
{
    if let Some(index) = index {
        let index = index as usize;
        if index < contents.len() {
            contents[index] = met(contents[index], length);
        }
    }
}

/// The static field to which a put puts.
fn static_target(put: Put) -> Option<u32>
    ensures { result ≡ static_target put }
{
    match put.field {
        Field::Static(field) => Some(field),
        Field::Instance(_, _) => None,
    }
}

/// The index of the instance field to which a put may put, where it does so by a class that is flagged.
fn field_target(flags: &[bool], put: Put) -> Option<u32>
    ensures { result ≡ field_target flags.now put }
{
    match put.field {
        Field::Static(_) => None,
        Field::Instance(owner, index) => {
            let owner = owner as usize;
            if owner < flags.len() && flags[owner] {
                Some(index)
            } else {
                None
            }
        }
    }
}

/// What these puts put to so many static fields, by number.
pub(crate) fn static_contents(
    alloc: Global,
    puts: &[Put],
    count: usize,
) -> Result<Vec<Content>, NoMemory>
    ensures { IfOk result (λ contents. AreContents static_target count puts.now contents.items) }
{
    let mut contents = vec![in alloc; Content::Unput; count]?;
    for put in puts {
        meet_at(&mut contents, static_target(*put), put.length);
    }
    Ok(contents)
}

/// What these puts put to so many instance fields, by index, where they do so by classes that are flagged.
pub(crate) fn field_contents(
    alloc: Global,
    puts: &[Put],
    flags: &[bool],
    count: usize,
) -> Result<Vec<Content>, NoMemory>
    ensures { IfOk result (λ contents. AreContents (field_target flags.now) count puts.now contents.items) }
{
    let mut contents = vec![in alloc; Content::Unput; count]?;
    for put in puts {
        meet_at(&mut contents, field_target(flags, *put), put.length);
    }
    Ok(contents)
}
