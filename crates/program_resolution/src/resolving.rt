//! The program of files, or what refuses them first.
ghost use Rattle.std.specs.Prelude.{◌≡◌, ◌+◌, ◌<◌, ◌≤◌, ◌^◌, ◌++◌, ◌∷◌, [], length, map, Some, None, IfOk, IfErr, nat_le, if◌then◌else◌, find, false, ℕ, Bool};
ghost use Rattle.std.specs.List.{AllByRecursion, range_with_len};
ghost use Rattle.program_tables.specs.Core.{core_count};
ghost use Rattle.lists.specs.Lists.{first as first_of};
ghost use Rattle.class_rules.specs.Grammar.{IsClass};
ghost use Rattle.class_lookup.specs.Hierarchy.{is_on_a_cycle, IsAcyclic};
ghost use Rattle.core_classes.specs.Core.{core, boot};
ghost use Rattle.core_classes.specs.Laws.{CoreClassesAreClasses, CoreHasBytes, CoreIsNamed, BootIsAClass, BootSaysPlan};
ghost use Rattle.core_classes.specs.Linkage.{CoreIsLinkable, CoreStandsFirst, CoreIsSupported, BootIsLinkable, BootIsSupported, BootIsOnNoCycle};
ghost use Rattle.program_resolution.specs.Linked.{most_files, calls_of, files_in};
ghost use Rattle.program_resolution.specs.Refusals.{Names, Places, causes_in, refusals};
ghost use Rattle.program_resolution.specs.Linking.{AreToLink, AreAccepted, IsLinked, IsFirstOr, early_refusals, refusals_of};
ghost use Rattle.program_tables.specs.Resolving.{HasBytes};
ghost use Rattle.program_tables.specs.Tables.{HasFileLimits};
ghost use Rattle.program_resolution.specs.declared.refusal.ProgramRefusal.TheVariants.{NoMain, TooManyClasses};
ghost use Rattle.program_resolution.specs.Resolving.{IsFirstRefusal, IsProgramOf};

use crate::initialization::{MOST_FILES, calls_of};
use crate::main_class::find_main;
use crate::passes::{
    first_duplicate, first_mention, first_misplaced, first_supertype, first_unsupported_item,
};
use crate::reading::read_files;
use crate::refusal::ProgramRefusal;
use base::NoMemory;
use class_hierarchy::{Hierarchy, first_on_cycle};
use class_lookup::Classes;
use class_pool::{ClassFile, Units};
use class_rules::laws::methods_have_code;
use core_classes::laws::{
    boot_is_a_class, boot_says_plan, core_classes_are_classes, core_has_bytes, core_is_named,
};
use core_classes::linkage::{
    boot_is_linkable, boot_is_on_no_cycle, boot_is_supported, core_is_linkable, core_is_supported,
    core_stands_first,
};
use core_classes::{boot_class, core_classes};
use resolved_program::Program;
use std::alloc::Global;

/// The laws of the core classes and of the class that is run. It does nothing.
fn linking_laws()
    ensures core_linkable { CoreIsLinkable }
    ensures core_first { CoreStandsFirst }
    ensures core_supported { CoreIsSupported }
    ensures core_grammar { CoreClassesAreClasses }
    ensures core_bytes { CoreHasBytes }
    ensures core_named { CoreIsNamed }
    ensures boot_linkable { BootIsLinkable }
    ensures boot_supported { BootIsSupported }
    ensures boot_grammar { BootIsAClass }
    ensures boot_says { BootSaysPlan }
    ensures boot_off_cycle { BootIsOnNoCycle }
{
    core_is_linkable();
    core_stands_first();
    core_is_supported();
    core_classes_are_classes();
    core_has_bytes();
    core_is_named();
    boot_is_linkable();
    boot_is_supported();
    boot_is_a_class();
    boot_says_plan();
    boot_is_on_no_cycle();
}

/// The core classes, and these behind them.
fn behind_core(alloc: Global, mut files: Vec<ClassFile>) -> Result<Vec<ClassFile>, NoMemory>
    ensures { IfOk result (λ all. all.items ≡ core ++ files.items) }
{
    let mut all = core_classes(alloc)?;
    all.append(&mut files)?;
    Ok(all)
}

/// The classes, and behind them the one that is run.
fn before_boot(
    alloc: Global,
    mut classes: Vec<ClassFile>,
    calls: &[Units],
    main: &Units,
) -> Result<Vec<ClassFile>, NoMemory>
    requires { length calls.now ≤ 10000 }
    ensures { IfOk result (λ all. all.items ≡ classes.items ++ boot calls.now main.now ∷ []) }
{
    classes.push(boot_class(alloc, calls, main)?)?;
    Ok(classes)
}

/// All classes of these files' classes: the core classes before them, and the one that is run behind.
fn linked_classes(
    alloc: Global,
    files: Vec<ClassFile>,
    main: &Units,
) -> Result<Vec<ClassFile>, NoMemory>
    ensures all { IfOk result (λ all. all.items ≡ core ++ (files.items ++ boot (calls_of files.items) main.now ∷ [])) }
    ensures few { IfOk result (λ all. length all.items < 2 ^ 32) }
{
    let count = files.len();
    // No memory has so many.
    if count > 4_000_000_000 {
        return Err(NoMemory);
    }
    core_is_named();
    let listed = behind_core(alloc, files)?;
    let classes = Classes::new(alloc, listed)?;
    let calls = calls_of(alloc, count, &classes)?;
    before_boot(alloc, classes.into_classes(), &calls, main)
}

/// The first of what refuses the classes before what they name is looked at: their names, what isn't supported, their supertypes,
/// their places in the hierarchy.
fn first_before_mentions(
    alloc: Global,
    classes: &Classes,
    files: u32,
) -> Result<Option<ProgramRefusal>, NoMemory>
    requires there { core_count + files ≤ length classes.now }
    requires grammar { AllByRecursion IsClass (files_in classes.now files) }
    requires core { causes_in classes.now Names (files_in classes.now files) ≡ [] → (c : ℕ) → c < core_count → is_on_a_cycle classes.now c ≡ false }
    requires off { causes_in classes.now Names (files_in classes.now files) ≡ [] → causes_in classes.now Places (files_in classes.now files) ≡ []
        → find (is_on_a_cycle classes.now) (range_with_len 0 (length classes.now)) ≡ None }
    ensures first { IfOk result (λ found. found ≡ first_of (early_refusals classes.now files)) }
    ensures acyclic { IfOk result (λ found. found ≡ None → IsAcyclic classes.now) }
{
    if let Some(refusal) = first_duplicate(classes, files) {
        return Ok(Some(refusal));
    }
    if let Some(refusal) = first_unsupported_item(alloc, classes, files)? {
        return Ok(Some(refusal));
    }
    if let Some(refusal) = first_supertype(alloc, classes, files)? {
        return Ok(Some(refusal));
    }
    let first = first_on_cycle(alloc, classes)?;
    first_misplaced(alloc, classes, files, first)
}

/// What refuses the files together.
fn refusal_of_all(files: u32, declares_main: bool) -> Option<ProgramRefusal>
    ensures { result ≡ first_of ((if nat_le files most_files then [] else TooManyClasses files most_files ∷ [])
        ++ (if declares_main then [] else NoMain ∷ [])) }
{
    if files > MOST_FILES {
        Some(ProgramRefusal::TooManyClasses(files, MOST_FILES))
    } else if !declares_main {
        Some(ProgramRefusal::NoMain)
    } else {
        None
    }
}

/// That nothing refuses the classes before what they name is looked at, and no class is above itself; or what refuses them first.
fn pass_places(alloc: Global, classes: &Classes, files: u32) -> Result<(), ProgramRefusal>
    requires there { core_count + files ≤ length classes.now }
    requires grammar { AllByRecursion IsClass (files_in classes.now files) }
    requires core { causes_in classes.now Names (files_in classes.now files) ≡ [] → (c : ℕ) → c < core_count → is_on_a_cycle classes.now c ≡ false }
    requires off { causes_in classes.now Names (files_in classes.now files) ≡ [] → causes_in classes.now Places (files_in classes.now files) ≡ []
        → find (is_on_a_cycle classes.now) (range_with_len 0 (length classes.now)) ≡ None }
    ensures passed { IfOk result (λ done. first_of (early_refusals classes.now files) ≡ None) }
    ensures acyclic { IfOk result (λ done. IsAcyclic classes.now) }
    ensures refused { IfErr result (λ refusal. (declares : Bool) → IsFirstOr (refusals_of classes.now files declares) refusal) }
{
    match first_before_mentions(alloc, classes, files)? {
        Some(refusal) => Err(refusal),
        None => Ok(()),
    }
}

/// That nothing refuses the classes, of which nothing does before what they name is looked at; or what refuses them first.
fn pass_mentions(
    alloc: Global,
    classes: &Hierarchy,
    files: u32,
    declares_main: bool,
) -> Result<(), ProgramRefusal>
    requires there { core_count + files ≤ length classes.now }
    requires bounds { AllByRecursion HasFileLimits (files_in classes.now files) }
    requires early { first_of (early_refusals classes.now files) ≡ None }
    ensures passed { IfOk result (λ done. refusals_of classes.now files declares_main ≡ []) }
    ensures refused { IfErr result (IsFirstOr (refusals_of classes.now files declares_main)) }
{
    if let Some(refusal) = first_mention(alloc, classes, files)? {
        return Err(refusal);
    }
    match refusal_of_all(files, declares_main) {
        Some(refusal) => Err(refusal),
        None => Ok(()),
    }
}

/// The program that these classes are, or what refuses them first.
fn program_of(
    alloc: Global,
    classes: Classes,
    files: u32,
    declares_main: bool,
) -> Result<Program, ProgramRefusal>
    requires { AreToLink classes files declares_main }
    ensures linked { IfOk result (AreAccepted classes files declares_main) }
    ensures refused { IfErr result (IsFirstOr (refusals_of classes files declares_main)) }
{
    pass_places(alloc, &classes, files)?;
    let hierarchy = Hierarchy::new(alloc, classes)?;
    pass_mentions(alloc, &hierarchy, files, declares_main)?;
    Ok(Program::from_hierarchy(alloc, hierarchy)?)
}

/// The program of these class files and of the class whose main is run, or what refuses them first.
fn link(alloc: Global, files: Vec<ClassFile>, main: &[u8]) -> Result<Program, ProgramRefusal>
    requires few { length files.items < 2 ^ 32 }
    requires grammar { AllByRecursion IsClass files.items }
    requires bytes { AllByRecursion (λ k. AllByRecursion HasBytes k.methods) files.items }
    ensures linked { IfOk result (IsLinked files.items main.now) }
    ensures refused { IfErr result (IsFirstOr (refusals files.items main.now)) }
{
    linking_laws();
    methods_have_code();
    let count = files.len() as u32;
    let class = find_main(alloc, &files, main)?;
    let all = linked_classes(alloc, files, &class.name)?;
    let classes = Classes::new(alloc, all)?;
    program_of(alloc, classes, count, class.declares_main)
}

/// The program of these files, which are class files, and of the class whose main is run, by the bytes of its name (4.4.7): the
/// core classes, the files' classes in order, and last `jop/Boot`. Or what refuses the files first.
pub fn resolve(alloc: Global, files: &[Vec<u8>], main: &[u8]) -> Result<Program, ProgramRefusal>
    requires { length files.now < 2 ^ 32 }
    ensures linked { IfOk result (IsProgramOf (map (λ f. f.items) files.now) main.now) }
    ensures refused { IfErr result (IsFirstRefusal (map (λ f. f.items) files.now) main.now) }
{
    let read = read_files(alloc, files)?;
    link(alloc, read, main)
}
