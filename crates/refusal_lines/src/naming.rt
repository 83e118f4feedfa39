//! What the line of a refusal names in the files.
ghost use Rattle.std.specs.Prelude.{◌≡◌, ◌++◌, ◌∷◌, [], map, IfOk, OnOk, slice_get};
ghost use Rattle.std.specs.Option.{option_map_or};
ghost use Rattle.class_pool.specs.Utf8.{utf8_bytes};
ghost use Rattle.class_pool.specs.Grammar.{entry_at as entry_in};
ghost use Rattle.class_rules.specs.Grammar.{IsClassOf};
ghost use Rattle.class_lookup.specs.Parts.{name_of as name_in_pool};
ghost use Rattle.core_classes.specs.Core.{core};
ghost use Rattle.program_resolution.specs.Resolving.{AreClassesOf};
ghost use Rattle.refusal_lines.specs.Entries.{unresolved_bytes as bytes_told};
ghost use Rattle.refusal_lines.specs.Naming.{named_bytes, IsNamedByRefusal};

use crate::entries::{entry_at, unresolved_bytes};
use crate::missing::Known;
use base::NoMemory;
use class_file::read_class;
use class_lookup::parts::name_of;
use class_pool::ClassFile;
use class_pool::utf8::text_bytes;
use core_classes::core_classes;
use name_laws::write_name;
use program_resolution::ProgramRefusal;
use program_tables::Why;
use std::alloc::Global;

/// The class file of these bytes. Where they are none, nothing of it can be told.
fn read_file(alloc: Global, bytes: &[u8]) -> Result<ClassFile, NoMemory>
    ensures { IfOk result (IsClassOf bytes.now) }
{
    match read_class(alloc, bytes) {
        Ok(class) => Ok(class),
        Err(_) => Err(NoMemory),
    }
}

fn put_class(classes: &mut Vec<ClassFile>, class: ClassFile) -> Result<(), NoMemory>
    ensures { OnOk result (classes.new.items ≡ classes.old.items ++ class ∷ []) }
{
    classes.push(class)?;
    Ok(())
}

/// The class files of these bytes.
fn read_files(alloc: Global, files: &[Vec<u8>]) -> Result<Vec<ClassFile>, NoMemory>
    ensures { IfOk result (λ ks. AreClassesOf (map (λ f. f.items) files.now) ks.items) }
{
    let mut classes = Vec::new(alloc);
    for file in files {
        let class = read_file(alloc, file)?;
        put_class(&mut classes, class)?;
    }
    Ok(classes)
}

/// The name of the file's class.
fn class_named(alloc: Global, files: &[ClassFile], file: u32) -> Result<Vec<u8>, NoMemory>
    ensures { IfOk result (λ bytes. bytes.items ≡ option_map_or (λ k. utf8_bytes (name_in_pool k)) (slice_get files.now file) []) }
{
    match files.get(file as usize) {
        Some(class) => text_bytes(alloc, name_of(class)),
        None => Ok(Vec::new(alloc)),
    }
}

/// What is told of an entry of the class.
fn entry_named(
    alloc: Global,
    known: &Known<'_>,
    class: &ClassFile,
    entry: u32,
    why: Why,
) -> Result<Vec<u8>, NoMemory>
    ensures { IfOk result (λ bytes. bytes.items ≡ option_map_or (bytes_told known.now.before.now known.now.files.now class.now.pool why)
        (entry_in class.now.pool entry) []) }
{
    match entry_at(&class.pool, entry) {
        Some(entry) => unresolved_bytes(alloc, known, &class.pool, why, entry),
        None => Ok(Vec::new(alloc)),
    }
}

/// What is told of an entry of the file.
fn entry_told(
    alloc: Global,
    files: &[ClassFile],
    file: u32,
    entry: u32,
    why: Why,
) -> Result<Vec<u8>, NoMemory>
    ensures { IfOk result (λ bytes. bytes.items ≡ named_bytes files.now (ProgramRefusal.Unresolved file entry why)) }
{
    let before = core_classes(alloc)?;
    let known = Known {
        before: &before,
        files,
    };
    match files.get(file as usize) {
        Some(class) => entry_named(alloc, &known, class, entry, why),
        None => Ok(Vec::new(alloc)),
    }
}

/// What is written of what the line of a refusal of these files names (4.4.7): of an entry that isn't resolved since a
/// class isn't there, the first such class; of any other the class, or the class, a dot, the name and the descriptor; and the class of
/// a file whose name is taken. Nothing for other refusals.
///
/// # Errors
///
/// There was no memory; or one of the files is no class file, and then no refusal of them names anything.
pub fn name_in(
    alloc: Global,
    files: &[Vec<u8>],
    refusal: ProgramRefusal,
) -> Result<Vec<u8>, NoMemory>
    ensures { IfOk result (λ name. IsNamedByRefusal (map (λ f. f.items) files.now) refusal name.items) }
{
    match refusal {
        ProgramRefusal::Duplicate(file, _) => {
            let classes = read_files(alloc, files)?;
            let name = class_named(alloc, &classes, file)?;
            write_name(alloc, name)
        }
        ProgramRefusal::Unresolved(file, entry, why) => {
            let classes = read_files(alloc, files)?;
            let name = entry_told(alloc, &classes, file, entry, why)?;
            write_name(alloc, name)
        }
        _ => Ok(Vec::new(alloc)),
    }
}
