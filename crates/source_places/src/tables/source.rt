//! The file that a class was compiled from.
ghost use Rattle.std.specs.Prelude.{◌≡◌, option_map, IfOk};
ghost use Rattle.class_pool.specs.Found.{first_of};
ghost use Rattle.source_places.specs.Tables.Source.{source_part, source_name, binary_name, folder_in, source_file_of};

use crate::tables::numbers::number;
use base::NoMemory;
use class_pool::kind::is_named;
use class_pool::utf8::put_text;
use class_pool::{Body, ClassFile};
use std::alloc::Global;

/// The bytes of the first SourceFile attribute.
fn source_bytes(class: &ClassFile) -> Option<&[u8]>
    ensures { option_map (λ bytes. bytes.now) result ≡ first_of (source_part class.now.pool) class.now.attributes }
{
    for attribute in class.attributes.as_slice() {
        if is_named(&class.pool, attribute.name, b"SourceFile") {
            if let Body::Bytes(bytes) = &attribute.body {
                return Some(bytes.as_slice());
            }
        }
    }
    None
}

/// The name of the file.
fn source_name(class: &ClassFile) -> Option<&[u16]>
    ensures { option_map (λ name. name.now) result ≡ source_name class.now }
{
    match source_bytes(class) {
        Some([high, low]) => class.pool.utf8(number(*high, *low)),
        _ => None,
    }
}

/// The name of the class.
fn binary_name(class: &ClassFile) -> &[u16]
    ensures { result.now ≡ binary_name class.now }
{
    match class.pool.class_name(class.this_class) {
        Some(name) => class.pool.utf8(name).unwrap_or(&[]),
        None => &[],
    }
}

/// The part of a name up to its last `/`.
fn folder_in(name: &[u16]) -> &[u16]
    ensures { result.now ≡ folder_in name.now }
{
    let mut length = 0;
    for (i, unit) in name.iter().enumerate() {
        if *unit == 47 {
            length = i + 1;
        }
    }
    &name[..length]
}

/// The file that a class was compiled from, in the folder of its package: `FOLDER/NAME`, or `NAME` in the unnamed
/// package. `None` where no SourceFile attribute is there, or the first one isn't of its form.
pub fn source_file(alloc: Global, class: &ClassFile) -> Result<Option<Vec<u8>>, NoMemory>
    ensures { IfOk result (λ file. option_map (λ bytes. bytes.items) file ≡ source_file_of class.now) }
{
    let Some(name) = source_name(class) else {
        return Ok(None);
    };
    let mut bytes = Vec::new(alloc);
    put_text(&mut bytes, folder_in(binary_name(class)))?;
    put_text(&mut bytes, name)?;
    Ok(Some(bytes))
}
