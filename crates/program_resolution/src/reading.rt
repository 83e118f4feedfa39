//! The first pass: files are read as class files.
ghost use Rattle.std.specs.Prelude.{◌≡◌, ◌<◌, ◌^◌, ◌++◌, ◌∷◌, [], length, map, IfOk, IfErr, OnOk};
ghost use Rattle.std.specs.List.{AllByRecursion};
ghost use Rattle.class_rules.specs.Grammar.{IsClassOf};
ghost use Rattle.program_tables.specs.Resolving.{HasBytes};
ghost use Rattle.program_resolution.specs.Resolving.{AreClassesOf, IsUnreadOr, IsUnreadAmong};

use crate::refusal::ProgramRefusal;
use base::NoMemory;
use class_file::{ClassFault, ClassFile, read_class};
use std::alloc::Global;

/// A class file, or why the file of this number isn't one.
fn read_file(alloc: Global, number: u32, bytes: &[u8]) -> Result<ClassFile, ProgramRefusal>
    ensures read { IfOk result (IsClassOf bytes.now) }
    ensures bytes { IfOk result (λ k. AllByRecursion HasBytes k.methods) }
    ensures refused { IfErr result (IsUnreadOr number bytes.now) }
{
    match read_class(alloc, bytes) {
        Ok(class) => Ok(class),
        Err(ClassFault::Version(major)) => Err(ProgramRefusal::UnsupportedVersion(number, major)),
        Err(ClassFault::Bad) => Err(ProgramRefusal::BadClass(number)),
        Err(ClassFault::NoMemory) => Err(ProgramRefusal::NoMemory),
    }
}

fn put_class(classes: &mut Vec<ClassFile>, class: ClassFile) -> Result<(), NoMemory>
    ensures { OnOk result (classes.new.items ≡ classes.old.items ++ class ∷ []) }
{
    classes.push(class)?;
    Ok(())
}

/// The class files of these bytes, or the first file that is none.
pub(crate) fn read_files(alloc: Global, files: &[Vec<u8>]) -> Result<Vec<ClassFile>, ProgramRefusal>
    requires { length files.now < 2 ^ 32 }
    ensures read { IfOk result (λ ks. AreClassesOf (map (λ f. f.items) files.now) ks.items) }
    ensures bytes { IfOk result (λ ks. AllByRecursion (λ k. AllByRecursion HasBytes k.methods) ks.items) }
    ensures refused { IfErr result (IsUnreadAmong (map (λ f. f.items) files.now)) }
{
    let mut classes = Vec::new(alloc);
    let mut number = 0u32;
    for file in files {
        let class = read_file(alloc, number, file)?;
        put_class(&mut classes, class)?;
        number += 1;
    }
    Ok(classes)
}
