//! Linking the class files of the operands.
ghost use Rattle.std.specs.Prelude.{◌≡◌, ◌<◌, ◌≤◌, ◌^◌, ℕ, List, Option, length, map, IfOk, IfErr};
ghost use Rattle.device_traits.specs.declared.seen.Seen.{Seen};
ghost use Rattle.command_line.specs.Command.{texts};
ghost use Rattle.outside.specs.Files.{files_told, OnlyWords, AreFiles};
ghost use Rattle.image_file.specs.Linked.{contents};
ghost use Rattle.jopizer.specs.Linked.{IsLinked};
ghost use Rattle.jopizer.specs.Refused.{IsLinkRefusal};
ghost use Rattle.endings.specs.Line.{text_of_word};
ghost use Rattle.endings.specs.World.{world};
ghost use Rattle.endings.specs.Linking.{slashed, class_name, OperandsFault, AreSizes, AreLinkedTo, LinkFault, PutsLinked, LinksFiles};
ghost use Rattle.endings.specs.Leaving.{Leaves};

use crate::lines::text_of;
use crate::outcome::{Ending, Refusal};
use answer_lines::Sizes;
use base::NoMemory;
use image_layout::coded_methods;
use jopizer::{LinkRefusal, Linked, link, write_image};
use name_laws::read_name;
use outside::{Files, FilesFault, Sink, put_all, read_files};
use program_resolution::ProgramRefusal;
use refusal_lines::name_in;
use std::alloc::Global;

fn slashed(byte: u8) -> u8
    ensures { result ≡ slashed byte }
{
    if byte == b'.' { b'/' } else { byte }
}

/// The name of a class of which the word is written, in which each `.` reads as `/`.
fn class_name(alloc: Global, word: &[u8]) -> Result<Vec<u8>, NoMemory>
    ensures { IfOk result (λ name. name.items ≡ class_name word.now) }
{
    let name = read_name(alloc, word)?;
    Ok(name.iter().map(|byte| slashed(*byte)).collect(alloc)?)
}

/// The files of the words from one up to another.
pub fn read_operands<F: Files>(
    alloc: Global,
    files: &mut F,
    first: u32,
    end: u32,
) -> Result<Vec<Vec<u8>>, Ending>
    requires order { first ≤ end }
    requires there { end ≤ F.words files.old }
    ensures files { IfOk result (λ read. AreFiles (F.told files.old) first end (contents read.items)) }
    ensures rest { IfOk result (λ read. OnlyWords (files_told (F.words files.old) (F.told files.old) (F.faults files.old))
        (files_told (F.words files.new) (F.told files.new) (F.faults files.new)) first end) }
    ensures fault { IfErr result (OperandsFault first end (files_told (F.words files.old) (F.told files.old) (F.faults files.old))
        (files_told (F.words files.new) (F.told files.new) (F.faults files.new))) }
{
    match read_files(alloc, files, first, end) {
        Ok(read) => Ok(read),
        Err(FilesFault::TooBig(operand, sum)) => Err(Ending::Refused(Refusal::TooBig(
            operand, sum,
        ))),
        Err(FilesFault::ReadFault(_)) => Err(Ending::ReadFault),
        Err(FilesFault::NoMemory) => Err(Ending::NoMemory),
    }
}

/// The ending where this refuses the resolving of the files.
fn not_resolved(alloc: Global, files: &[Vec<u8>], unresolved: ProgramRefusal) -> Ending
    ensures { (main : List ℕ) → IsLinkRefusal (contents files.now) main (LinkRefusal.Resolving unresolved) → LinkFault (contents files.now) main result }
{
    match name_in(alloc, files, unresolved) {
        Ok(name) => Ending::NotLinked(LinkRefusal::Resolving(unresolved), name),
        Err(_) => Ending::NoMemory,
    }
}

/// The ending where this refuses the files.
pub fn not_linked(alloc: Global, files: &[Vec<u8>], refusal: LinkRefusal) -> Ending
    ensures { (main : List ℕ) → IsLinkRefusal (contents files.now) main refusal → LinkFault (contents files.now) main result }
{
    match refusal {
        LinkRefusal::Resolving(unresolved) => not_resolved(alloc, files, unresolved),
        LinkRefusal::NotVerified(_, _, _, _)
        | LinkRefusal::TooLarge(_, _, _)
        | LinkRefusal::FileTooLarge(_, _) => Ending::NotLinked(refusal, Vec::new(alloc)),
        LinkRefusal::NoMemory => Ending::NoMemory,
    }
}

/// The sizes of what was linked, whose file has these bytes.
fn sizes_of(linked: &Linked, bytes: &[u8]) -> Sizes
    requires { length linked.now.laid.words < 2 ^ 32 }
    ensures sizes { AreSizes linked.now bytes.now result }
    ensures linked { IsLinked linked.now }
{
    let program = linked.program().program();
    Sizes {
        classes: program.class_count(),
        methods: coded_methods(program),
        words: linked.layout().words().len() as u32,
        bytes: bytes.len() as u64,
    }
}

/// The file of the image of what was linked, and its sizes.
fn file_of(alloc: Global, linked: &Linked) -> Result<(Vec<u8>, Sizes), NoMemory>
    ensures { IfOk result (λ made. AreLinkedTo linked.now.files linked.now.main made.0.items made.1) }
{
    let bytes = write_image(alloc, linked)?;
    let sizes = sizes_of(linked, &bytes);
    Ok((bytes, sizes))
}

/// The same, of what is needed no more.
fn file_made(alloc: Global, linked: Linked) -> Result<(Vec<u8>, Sizes), Ending>
    ensures made { IfOk result (λ made. AreLinkedTo linked.files linked.main made.0.items made.1) }
    ensures memory { (files : List (List ℕ)) (main : List ℕ) → IfErr result (LinkFault files main) }
{
    let made = file_of(alloc, &linked);
    drop(linked);
    match made {
        Ok(made) => Ok(made),
        Err(_) => Err(Ending::NoMemory),
    }
}

/// The file of the image to which the files are linked, and its sizes.
fn linked_file(alloc: Global, files: &[Vec<u8>], main: &[u8]) -> Result<(Vec<u8>, Sizes), Ending>
    requires { length files.now < 2 ^ 32 }
    ensures linked { IfOk result (λ made. AreLinkedTo (contents files.now) main.now made.0.items made.1) }
    ensures fault { IfErr result (LinkFault (contents files.now) main.now) }
{
    match link(alloc, files, main) {
        Ok(linked) => file_made(alloc, linked),
        Err(refusal) => Err(not_linked(alloc, files, refusal)),
    }
}

/// Links the files, and puts the file of their image.
fn put_linked<O: Sink>(alloc: Global, files: &[Vec<u8>], main: &[u8], out: &mut O) -> Ending
    requires { length files.now < 2 ^ 32 }
    ensures put { PutsLinked (contents files.now) main.now (O.held out.old) (O.held out.new) (O.faults out.old) (O.faults out.new) result }
    ensures leaves { Leaves result → out.new ≡ out.old }
{
    let (bytes, sizes) = match linked_file(alloc, files, main) {
        Ok(made) => made,
        Err(ending) => return ending,
    };
    match put_all(out, &bytes) {
        Ok(()) => Ending::Linked(sizes),
        Err(_) => Ending::WriteFault,
    }
}

/// Links the files of the words from `first` on, with the main class that the word `main` names, and puts the file of their image.
pub fn link_files<F: Files, O: Sink>(
    alloc: Global,
    words: &[&str],
    main: u32,
    first: u32,
    files: &mut F,
    out: &mut O,
) -> Ending
    requires words { length words.now ≡ F.words files.old }
    requires few { length words.now < 2 ^ 32 }
    requires main { main < length words.now }
    requires first { first < length words.now }
    ensures links { (left : Option (List ℕ)) (read_faults : ℕ) (watch : Option (List Seen)) → LinksFiles (text_of_word (texts words.now) main) first
        (world (F.words files.old) (F.told files.old) (F.faults files.old) left read_faults (O.held out.old) (O.faults out.old) watch)
        (world (F.words files.new) (F.told files.new) (F.faults files.new) left read_faults (O.held out.new) (O.faults out.new) watch) result }
    ensures leaves { Leaves result → out.new ≡ out.old }
{
    let read = match read_operands(alloc, files, first, words.len() as u32) {
        Ok(read) => read,
        Err(ending) => return ending,
    };
    match class_name(alloc, text_of(words, main)) {
        Ok(name) => put_linked(alloc, &read, &name, out),
        Err(_) => Ending::NoMemory,
    }
}
