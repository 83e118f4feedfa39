//! The program over the files of a system, a reader and two sinks; and the words of this process.
ghost use Rattle.std.specs.Prelude.{◌≡◌, ◌<◌, ◌^◌, ◌⊎◌, length, map, string_bytes, IfOk, IfErr};
ghost use Rattle.command_line.specs.Command.{texts};
ghost use Rattle.endings.specs.World.{world};
ghost use Rattle.jop_cli.specs.Process.{IsStatus, IsCalledStatus, IsWordsStatus, sinks};

use crate::top::jop;
use jop_core::{NoWatch, Watch};
use outside::{FileSystem, Files, HostFiles, HostSource, Sink, Source, SteadyRead};
use std::alloc::{AllocError, Global};
use std::{env, io};

/// The status where there was no memory for the words or the objects.
const NO_MEMORY: u8 = 5;

/// The status where the words can't be read or are too many.
const NO_WORDS: u8 = 6;

/// The words of this process after the program's name, as the system hands them out.
///
/// # Errors
///
/// The status that the process is to end with: 5 where there is no memory for them, and 6 where one is no text.
pub fn words_of(rt: &HostRuntime) -> Result<Vec<String>, u8>
    ensures { IfErr result (λ status. (status ≡ 5) ⊎ (status ≡ 6)) }
{
    let mut words = Vec::new(rt.alloc());
    let given = match env::args(rt) {
        Ok(given) => given,
        Err(fault) if fault.kind() == io::ErrorKind::OutOfMemory => return Err(NO_MEMORY),
        Err(_) => return Err(NO_WORDS),
    };
    for word in given.skip(1) {
        if words.push(word).is_err() {
            return Err(NO_MEMORY);
        }
    }
    Ok(words)
}

/// The texts of words.
pub fn texts_of(alloc: Global, words: &[String]) -> Result<Vec<&str>, AllocError>
    ensures { IfOk result (λ found. map (λ text. text.now) found.items ≡ map string_bytes words.now) }
{
    let mut texts = Vec::new(alloc);
    for word in words {
        texts.push(word.as_str())?;
    }
    Ok(texts)
}

/// Calls the program, and gives the status that its process is to end with.
pub fn status_of_call<F: Files, S: Source, O: Sink, E: Sink, V: Watch>(
    alloc: Global,
    words: &[&str],
    files: &mut F,
    input: &mut S,
    out: &mut O,
    err: &mut E,
    watch: &mut V,
) -> u8
    requires words { length words.now ≡ F.words files.old }
    requires few { length words.now < 2 ^ 32 }
    ensures { IsStatus (texts words.now)
        (world (F.words files.old) (F.told files.old) (F.faults files.old) (S.left input.old) (S.faults input.old) (O.held out.old) (O.faults out.old)
        (V.held watch.old))
        (world (F.words files.new) (F.told files.new) (F.faults files.new) (S.left input.new) (S.faults input.new) (O.held out.new) (O.faults out.new)
        (V.held watch.new))
        (E.held err.old) (E.held err.new) (E.faults err.old) (E.faults err.new) result }
{
    jop(alloc, words, files, input, out, err, watch).status()
}

/// Calls the program over the files of a system, a reader and two sinks. Without memory for the files the status is 5,
/// as it is where the program finds none, and the sinks are as they were.
pub fn run_over<S, R, O, E>(
    alloc: Global,
    words: &[&str],
    system: S,
    input: R,
    out: &mut O,
    err: &mut E,
) -> u8
where
    S: FileSystem + Drop,
    R: SteadyRead + Drop,
    O: Sink,
    E: Sink,
    requires { length words.now < 2 ^ 32 }
    ensures { IsCalledStatus (texts words.now) (map (λ word. S.told system word.now) words.now) (R.remaining input)
        (sinks (O.held out.old) (O.faults out.old) (E.held err.old) (E.faults err.old))
        (sinks (O.held out.new) (O.faults out.new) (E.held err.new) (E.faults err.new)) result }
{
    let Ok(mut files) = HostFiles::new(alloc, system, words) else {
        return NO_MEMORY;
    };
    status_of_call(
        alloc,
        words,
        &mut files,
        &mut HostSource::new(input),
        out,
        err,
        &mut NoWatch,
    )
}

/// The same with however many words. Where there are 2^32 or more, no call is made, and the status is 6.
pub fn run_words<S, R, O, E>(
    alloc: Global,
    words: &[&str],
    system: S,
    input: R,
    out: &mut O,
    err: &mut E,
) -> u8
where
    S: FileSystem + Drop,
    R: SteadyRead + Drop,
    O: Sink,
    E: Sink,
    ensures { IsWordsStatus (texts words.now) (map (λ word. S.told system word.now) words.now) (R.remaining input)
        (sinks (O.held out.old) (O.faults out.old) (E.held err.old) (E.faults err.old))
        (sinks (O.held out.new) (O.faults out.new) (E.held err.new) (E.faults err.new)) result }
{
    if words.len() >= 1 << 32 {
        return NO_WORDS;
    }
    run_over(alloc, words, system, input, out, err)
}
