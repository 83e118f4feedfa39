//! Resolving, verifying and laying out, one behind the other.
ghost use Rattle.std.specs.Prelude.{◌≡◌, ◌<◌, ◌^◌, length, None, IfOk, IfErr, OnOk};
ghost use Rattle.image_file.specs.Linked.{contents};
ghost use Rattle.program_resolution.specs.Resolving.{IsProgramOf};
ghost use Rattle.bytecode_verifier.specs.Failure.{IsVerified, FailsFirst, broken_seen};
ghost use Rattle.image_layout.specs.Layout.{IsLaidOut, first_passed};
ghost use Rattle.jopizer.specs.Linked.{AreLinked, IsLinked};
ghost use Rattle.jopizer.specs.Refused.{IsLinkRefusal, BeginsWithCore, IsUnverified, CountIsTooLarge};

use crate::file_length::within_length;
use crate::linked::Linked;
use crate::refusal::LinkRefusal;
use base::NoMemory;
use bytecode_verifier::laws::core_is_verified;
use bytecode_verifier::{MethodRule, Verified, VerifyFault, verify};
use image_layout::{LayFault, Layout, lay_out};
use program_resolution::{CORE_CLASSES, Program, ProgramRefusal, resolve};
use program_tables::laws::members_are_there;
use std::alloc::Global;

/// The program of the files, resolved.
fn resolved(alloc: Global, files: &[Vec<u8>], main: &[u8]) -> Result<Program, LinkRefusal>
    requires { length files.now < 2 ^ 32 }
    ensures program { IfOk result (λ p. IsProgramOf (contents files.now) main.now p) }
    ensures refused { IfErr result (IsLinkRefusal (contents files.now) main.now) }
{
    match resolve(alloc, files, main) {
        Ok(program) => Ok(program),
        Err(ProgramRefusal::NoMemory) => Err(LinkRefusal::NoMemory),
        Err(refusal) => Err(LinkRefusal::Resolving(refusal)),
    }
}

/// The file, and the place in it, of a method of the program, which stands in none of the core classes.
fn not_verified(program: &Program, method: u32, pc: u32, rule: MethodRule) -> LinkRefusal
    requires core { BeginsWithCore program.now }
    requires fails { FailsFirst program.now method pc (broken_seen rule) }
    ensures { IsUnverified program.now result }
{
    core_is_verified();
    program.is_resolved();
    members_are_there();
    let place = program.method(method);
    let file = place.class - CORE_CLASSES;
    let index = place.index as u32;
    LinkRefusal::NotVerified(file, index, pc, rule)
}

/// The program, verified.
fn verified(alloc: Global, program: Program) -> Result<Verified, LinkRefusal>
    requires core { BeginsWithCore program }
    ensures verified { IfOk result (λ verified. (verified ≡ program) × IsVerified program) }
    ensures refused { IfErr result (IsUnverified program) }
{
    match verify(alloc, program) {
        Ok(verified) => Ok(verified),
        Err(VerifyFault::At(method, pc, rule, program)) => {
            let refusal = not_verified(&program, method, pc, rule);
            drop(program);
            Err(refusal)
        }
        Err(VerifyFault::NoMemory(program)) => {
            drop(program);
            Err(LinkRefusal::NoMemory)
        }
    }
}

/// The image of the program.
fn laid_out(alloc: Global, program: &Program) -> Result<Layout, LinkRefusal>
    ensures laid { IfOk result (IsLaidOut program.now) }
    ensures within { OnOk result (first_passed program.now ≡ None) }
    ensures refused { IfErr result (CountIsTooLarge program.now) }
{
    match lay_out(alloc, program) {
        Ok(layout) => Ok(layout),
        Err(LayFault::TooLarge(what, count, limit)) => {
            Err(LinkRefusal::TooLarge(what, count, limit))
        }
        Err(LayFault::NoMemory) => Err(LinkRefusal::NoMemory),
    }
}

/// The image of the files' program, within the limits of its file too.
fn image_within(
    alloc: Global,
    program: &Program,
    files: &[Vec<u8>],
    main: &[u8],
) -> Result<Layout, LinkRefusal>
    requires program { IsProgramOf (contents files.now) main.now program.now }
    requires verified { IsVerified program.now }
    ensures linked { OnOk result (AreLinked (contents files.now) main.now program.now) }
    ensures laid { IfOk result (IsLaidOut program.now) }
    ensures refused { IfErr result (IsLinkRefusal (contents files.now) main.now) }
{
    let layout = laid_out(alloc, program)?;
    within_length(main, layout.words(), files)?;
    Ok(layout)
}

/// A verified program with its image.
fn with_image(
    alloc: Global,
    program: Verified,
    files: &[Vec<u8>],
    main: &[u8],
) -> Result<(Verified, Layout), LinkRefusal>
    requires program { IsProgramOf (contents files.now) main.now program }
    ensures linked { IfOk result (λ made. AreLinked (contents files.now) main.now made.0 × IsLaidOut made.0 made.1) }
    ensures refused { IfErr result (IsLinkRefusal (contents files.now) main.now) }
{
    match image_within(alloc, program.program(), files, main) {
        Ok(layout) => Ok((program, layout)),
        Err(refusal) => {
            drop(program);
            Err(refusal)
        }
    }
}

/// The files' program, verified, and its image.
fn joined(
    alloc: Global,
    program: Program,
    files: &[Vec<u8>],
    main: &[u8],
) -> Result<(Verified, Layout), LinkRefusal>
    requires program { IsProgramOf (contents files.now) main.now program }
    ensures linked { IfOk result (λ made. AreLinked (contents files.now) main.now made.0 × IsLaidOut made.0 made.1) }
    ensures refused { IfErr result (IsLinkRefusal (contents files.now) main.now) }
{
    let verified = verified(alloc, program)?;
    with_image(alloc, verified, files, main)
}

/// The program and the image that the files are linked to.
fn linked_parts(
    alloc: Global,
    files: &[Vec<u8>],
    main: &[u8],
) -> Result<(Verified, Layout), LinkRefusal>
    requires { length files.now < 2 ^ 32 }
    ensures linked { IfOk result (λ made. AreLinked (contents files.now) main.now made.0 × IsLaidOut made.0 made.1) }
    ensures refused { IfErr result (IsLinkRefusal (contents files.now) main.now) }
{
    let program = resolved(alloc, files, main)?;
    joined(alloc, program, files, main)
}

/// Links files, which it keeps, as the name.
pub(crate) fn link_kept(
    alloc: Global,
    files: Vec<Vec<u8>>,
    main_name: Vec<u8>,
) -> Result<Linked, LinkRefusal>
    requires { length files.items < 2 ^ 32 }
    ensures files { IfOk result (λ linked. linked.files ≡ contents files.items) }
    ensures main { IfOk result (λ linked. linked.main ≡ main_name.items) }
    ensures linked { IfOk result IsLinked }
    ensures refused { IfErr result (IsLinkRefusal (contents files.items) main_name.items) }
{
    let (program, layout) = linked_parts(alloc, &files, &main_name)?;
    Ok(Linked {
        program,
        layout,
        files,
        main_name,
    })
}

/// A copy of these bytes.
fn copy_of(alloc: Global, bytes: &[u8]) -> Result<Vec<u8>, NoMemory>
    ensures { IfOk result (λ copy. copy.items ≡ bytes.now) }
{
    Ok(Vec::from_slice(alloc, bytes)?)
}

/// Copies of the files.
fn copies(alloc: Global, files: &[Vec<u8>]) -> Result<Vec<Vec<u8>>, NoMemory>
    ensures { IfOk result (λ copies. contents copies.items ≡ contents files.now) }
{
    let mut copies = Vec::new(alloc);
    for file in files {
        copies.push(copy_of(alloc, file)?)?;
    }
    Ok(copies)
}

/// Links files with the class whose `main` is run, by the bytes of its name (4.4.7).
///
/// # Errors
///
/// What refuses the files first, in the order of the passes: what resolving refuses, then the first place at which a method breaks a
/// rule of the verifier, then the first limit that the image passes, last the limit of its file.
pub fn link(alloc: Global, files: &[Vec<u8>], main: &[u8]) -> Result<Linked, LinkRefusal>
    requires { length files.now < 2 ^ 32 }
    ensures files { IfOk result (λ linked. linked.files ≡ contents files.now) }
    ensures main { IfOk result (λ linked. linked.main ≡ main.now) }
    ensures linked { IfOk result IsLinked }
    ensures refused { IfErr result (IsLinkRefusal (contents files.now) main.now) }
{
    let kept = copies(alloc, files)?;
    let main_name = copy_of(alloc, main)?;
    link_kept(alloc, kept, main_name)
}
