//! The passes over the classes, one after the other, each file by file.
ghost use Rattle.std.specs.Prelude.{◌≡◌, ◌+◌, ◌<◌, ◌≤◌, length, IfOk, IfSome, Some, false, find, slice_get, slice_index_or, ℕ};
ghost use Rattle.std.specs.List.{AllByRecursion, range_with_len};
ghost use Rattle.program_tables.specs.Core.{core_count};
ghost use Rattle.lists.specs.Lists.{first as first_of};
ghost use Rattle.class_rules.specs.Grammar.{IsClass};
ghost use Rattle.program_tables.specs.Tables.{HasFileLimits};
ghost use Rattle.program_tables.specs.Placed.{duplicate_of};
ghost use Rattle.program_tables.specs.Unresolved.{implements_all as implements_each};
ghost use Rattle.class_lookup.specs.Hierarchy.{is_on_a_cycle};
ghost use Rattle.program_resolution.specs.Linked.{files_in, number_of};
ghost use Rattle.program_resolution.specs.Refusals.{Names, Support, Supertypes, Places, Mentions, causes, causes_in};

use crate::refusal::ProgramRefusal;
use base::{NoMemory, is_text};
use class_checks::{first_unsupported, implementing_classes, is_badly_placed};
use class_hierarchy::Hierarchy;
use class_lookup::Classes;
use class_lookup::parts::name_of;
use class_pool::ClassFile;
use program_tables::TextTypes;
use std::alloc::Global;
use unresolved_names::{first_unresolved, first_unresolved_supertype};

/// How many core classes there are: the number of the first class of a file.
pub const CORE_CLASSES: u32 = 23;

/// The class of a file, which stands behind the core classes.
#[tactic(auto, using(crate::proofs::FileLemmas::file_at))]
fn class_of_file(classes: &Classes, files: u32, file: u32) -> &ClassFile
    requires file { file < files }
    requires there { core_count + files ≤ length classes.now }
    ensures file { slice_get (files_in classes.now files) file ≡ Some result.now }
    ensures class { slice_get classes.now (number_of file) ≡ Some result.now }
{
    // The contract alone speaks of it.
    let _ = files;
    let _ = classes.class_count();
    classes.class(CORE_CLASSES + file)
}

/// The class of the same name that stands before this one, or else the last class, where this one has its name.
fn duplicate_of(classes: &Classes, class: u32) -> Option<u32>
    requires { class < length classes.now }
    ensures { result ≡ duplicate_of classes.now class }
{
    let file = classes.class(class);
    let found = classes.find_class(name_of(file))?;
    if found < class {
        return Some(found);
    }
    let last = classes.class_count() - 1;
    if is_text(name_of(file), b"jop/Boot") && class != last {
        Some(last)
    } else {
        None
    }
}

/// The file, if its class's name is taken.
fn refused_name(classes: &Classes, file: u32, class: &ClassFile) -> Option<ProgramRefusal>
    requires { number_of file < length classes.now }
    ensures { result ≡ first_of (causes classes.now Names file class.now) }
{
    // The contract alone speaks of it.
    let _ = class;
    let _ = classes.class_count();
    match duplicate_of(classes, CORE_CLASSES + file) {
        Some(earlier) => Some(ProgramRefusal::Duplicate(file, earlier)),
        None => None,
    }
}

/// The first file whose name is taken.
pub(crate) fn first_duplicate(classes: &Classes, files: u32) -> Option<ProgramRefusal>
    requires { core_count + files ≤ length classes.now }
    ensures { result ≡ first_of (causes_in classes.now Names (files_in classes.now files)) }
{
    for file in 0..files {
        let class = class_of_file(classes, files, file);
        if let Some(refusal) = refused_name(classes, file, class) {
            return Some(refusal);
        }
    }
    None
}

/// The first that isn't supported in a file.
#[tactic(auto, using(crate::proofs::FileLemmas::first_mapped))]
fn refused_item(
    alloc: Global,
    classes: &Classes,
    file: u32,
    class: &ClassFile,
) -> Result<Option<ProgramRefusal>, NoMemory>
    requires { IsClass class.now }
    ensures { IfOk result (λ found. found ≡ first_of (causes classes.now Support file class.now)) }
{
    // The contract alone speaks of it.
    let _ = classes;
    match first_unsupported(alloc, class)? {
        Some((site, item)) => Ok(Some(ProgramRefusal::Unsupported(file, site, item))),
        None => Ok(None),
    }
}

/// The first of what isn't supported.
pub(crate) fn first_unsupported_item(
    alloc: Global,
    classes: &Classes,
    files: u32,
) -> Result<Option<ProgramRefusal>, NoMemory>
    requires there { core_count + files ≤ length classes.now }
    requires grammar { AllByRecursion IsClass (files_in classes.now files) }
    ensures { IfOk result (λ found. found ≡ first_of (causes_in classes.now Support (files_in classes.now files))) }
{
    for file in 0..files {
        let class = class_of_file(classes, files, file);
        if let Some(refusal) = refused_item(alloc, classes, file, class)? {
            return Ok(Some(refusal));
        }
    }
    Ok(None)
}

/// The first superclass or superinterface of a file's class that isn't resolved.
#[tactic(auto, using(crate::proofs::FileLemmas::first_mapped))]
fn refused_supertype(texts: &TextTypes<'_>, file: u32, class: &ClassFile) -> Option<ProgramRefusal>
    requires there { number_of file < length texts.now }
    requires own { slice_get texts.now (number_of file) ≡ Some class.now }
    ensures { result ≡ first_of (causes texts.now Supertypes file class.now) }
{
    // Its clause is for the proof alone.
    let _ = texts.classes().class_count();
    match first_unresolved_supertype(texts, CORE_CLASSES + file, class) {
        Some((entry, why)) => Some(ProgramRefusal::Unresolved(file, entry, why)),
        None => None,
    }
}

/// The first superclass or superinterface that isn't resolved, by what the texts mean.
fn first_supertype_by(texts: &TextTypes<'_>, files: u32) -> Option<ProgramRefusal>
    requires { core_count + files ≤ length texts.now }
    ensures { result ≡ first_of (causes_in texts.now Supertypes (files_in texts.now files)) }
{
    for file in 0..files {
        let class = class_of_file(texts.classes(), files, file);
        if let Some(refusal) = refused_supertype(texts, file, class) {
            return Some(refusal);
        }
    }
    None
}

/// The first superclass or superinterface that isn't resolved.
pub(crate) fn first_supertype(
    alloc: Global,
    classes: &Classes,
    files: u32,
) -> Result<Option<ProgramRefusal>, NoMemory>
    requires { core_count + files ≤ length classes.now }
    ensures { IfOk result (λ found. found ≡ first_of (causes_in classes.now Supertypes (files_in classes.now files))) }
{
    let texts = TextTypes::new(alloc, classes)?;
    Ok(first_supertype_by(&texts, files))
}

/// The file, if its class stands wrongly in the hierarchy; `first` is the first class that is above itself.
fn refused_place(
    alloc: Global,
    classes: &Classes,
    file: u32,
    class: &ClassFile,
    on_cycle: bool,
) -> Result<Option<ProgramRefusal>, NoMemory>
    requires there { number_of file < length classes.now }
    requires cycle { on_cycle ≡ is_on_a_cycle classes.now (number_of file) }
    ensures { IfOk result (λ found. found ≡ first_of (causes classes.now Places file class.now)) }
{
    // The contract alone speaks of it.
    let _ = class;
    let _ = classes.class_count();
    if is_badly_placed(alloc, classes, CORE_CLASSES + file, on_cycle)? {
        Ok(Some(ProgramRefusal::BadHierarchy(file)))
    } else {
        Ok(None)
    }
}

/// Whether the class is above itself, by the first class that is, where this stands behind no class before it.
fn is_on_cycle(classes: &Classes, first: Option<u32>, class: u32) -> bool
    requires class { class < length classes.now }
    requires first { first ≡ find (is_on_a_cycle classes.now) (range_with_len 0 (length classes.now)) }
    requires behind { IfSome first (λ d. class ≤ d) }
    ensures { result ≡ is_on_a_cycle classes.now class }
{
    // The contract alone speaks of it.
    let _ = classes;
    match first {
        Some(found) => found == class,
        None => false,
    }
}

/// The first file whose class stands wrongly in the hierarchy, by the first class that is above itself.
pub(crate) fn first_misplaced(
    alloc: Global,
    classes: &Classes,
    files: u32,
    first: Option<u32>,
) -> Result<Option<ProgramRefusal>, NoMemory>
    requires there { core_count + files ≤ length classes.now }
    requires first { first ≡ find (is_on_a_cycle classes.now) (range_with_len 0 (length classes.now)) }
    requires behind_core { IfSome first (λ d. core_count ≤ d) }
    ensures { IfOk result (λ found. found ≡ first_of (causes_in classes.now Places (files_in classes.now files))) }
{
    for file in 0..files {
        // Its clause is for the proof alone.
        let _ = classes.class_count();
        let class = class_of_file(classes, files, file);
        let on_cycle = is_on_cycle(classes, first, CORE_CLASSES + file);
        if let Some(refusal) = refused_place(alloc, classes, file, class, on_cycle)? {
            return Ok(Some(refusal));
        }
    }
    Ok(None)
}

/// The first of all else of a file's class that isn't resolved.
#[tactic(auto, using(crate::proofs::FileLemmas::first_mapped))]
fn refused_mention(
    alloc: Global,
    classes: &Hierarchy,
    texts: &TextTypes<'_>,
    file: u32,
    class: &ClassFile,
    implements_all: bool,
) -> Result<Option<ProgramRefusal>, NoMemory>
    requires there { number_of file < length classes.now }
    requires own { slice_get classes.now (number_of file) ≡ Some class.now }
    requires texts { texts.now ≡ classes.now }
    requires bounds { HasFileLimits class.now }
    requires implements { implements_all ≡ implements_each classes.now (number_of file) }
    ensures { IfOk result (λ found. found ≡ first_of (causes classes.now Mentions file class.now)) }
{
    // Its clause is for the proof alone.
    let _ = classes.classes().class_count();
    match first_unresolved(
        alloc,
        classes,
        texts,
        CORE_CLASSES + file,
        class,
        implements_all,
    )? {
        Some((entry, why)) => Ok(Some(ProgramRefusal::Unresolved(file, entry, why))),
        None => Ok(None),
    }
}

/// Whether a file's class leaves no abstract method without code, by the table for all classes.
fn implements_all(classes: &Hierarchy, implementing: &[bool], file: u32) -> bool
    requires there { number_of file < length classes.now }
    requires long { length implementing.now ≡ length classes.now }
    requires each { (c : ℕ) → c < length classes.now → slice_index_or implementing.now c false ≡ implements_each classes.now c }
    ensures { result ≡ implements_each classes.now (number_of file) }
{
    // Its clause is for the proof alone.
    let _ = classes.classes().class_count();
    implementing[(CORE_CLASSES + file) as usize]
}

/// The first of all else that isn't resolved, by what the texts mean and by the table of the classes that leave no abstract method
/// without code.
fn first_mention_by(
    alloc: Global,
    classes: &Hierarchy,
    texts: &TextTypes<'_>,
    files: u32,
    implementing: &[bool],
) -> Result<Option<ProgramRefusal>, NoMemory>
    requires there { core_count + files ≤ length classes.now }
    requires texts { texts.now ≡ classes.now }
    requires bounds { AllByRecursion HasFileLimits (files_in classes.now files) }
    requires long { length implementing.now ≡ length classes.now }
    requires each { (c : ℕ) → c < length classes.now → slice_index_or implementing.now c false ≡ implements_each classes.now c }
    ensures { IfOk result (λ found. found ≡ first_of (causes_in classes.now Mentions (files_in classes.now files))) }
{
    for file in 0..files {
        let class = class_of_file(classes.classes(), files, file);
        let implements = implements_all(classes, implementing, file);
        if let Some(refusal) = refused_mention(alloc, classes, texts, file, class, implements)? {
            return Ok(Some(refusal));
        }
    }
    Ok(None)
}

/// The first of all else that isn't resolved.
pub(crate) fn first_mention(
    alloc: Global,
    classes: &Hierarchy,
    files: u32,
) -> Result<Option<ProgramRefusal>, NoMemory>
    requires there { core_count + files ≤ length classes.now }
    requires bounds { AllByRecursion HasFileLimits (files_in classes.now files) }
    ensures { IfOk result (λ found. found ≡ first_of (causes_in classes.now Mentions (files_in classes.now files))) }
{
    let implementing = implementing_classes(alloc, classes)?;
    let texts = TextTypes::new(alloc, classes.classes())?;
    first_mention_by(alloc, classes, &texts, files, &implementing)
}
