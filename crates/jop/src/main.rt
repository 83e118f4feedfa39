//! The program `jop`: the top call over the real files and streams. Words that ask how it is used, or which version it
//! is, are answered without a call. What stands here hands on: which words the system gives, and that this process's
//! files and streams are those that are handed on, isn't proved.
#![tactic(auto)]

ghost use Rattle.std.specs.Prelude.{map, string_bytes};
ghost use Rattle.command_line.specs.Command.{texts};
ghost use Rattle.jop_cli.specs.Process.{sinks};
ghost use Rattle.jop.specs.Answers.{IsAnswered, IsProcessStatus};

mod help;

use help::{answer, question_of};
use jop_cli::host::{run_words, texts_of, words_of};
use outside::{FileSystem, HostSink, Sink, SteadyRead};
use std::alloc::Global;
use std::process::ExitCode;

/// The status where there was no memory for the words.
const NO_MEMORY: u8 = 5;

/// Answers the words over the files of a system, a reader and two sinks, and gives the status that the process is to
/// end with.
fn answer_words<S, R, O, E>(
    alloc: Global,
    words: &[&str],
    system: S,
    input: R,
    out: &mut O,
    err: &mut E,
) -> u8
where
    S: FileSystem + Drop,
    R: SteadyRead + Drop,
    O: Sink,
    E: Sink,
    ensures { IsAnswered (texts words.now) (map (λ word. S.told system word.now) words.now) (R.remaining input)
        (sinks (O.held out.old) (O.faults out.old) (E.held err.old) (E.faults err.old))
        (sinks (O.held out.new) (O.faults out.new) (E.held err.new) (E.faults err.new)) result }
{
    match question_of(words) {
        Some(question) => answer(out, question),
        None => run_words(alloc, words, system, input, out, err),
    }
}

/// Answers the words of the process over its files and streams, and gives the status that it is to end with.
fn status_of(rt: HostRuntime, words: &[String]) -> u8
    ensures { IsProcessStatus (map string_bytes words.now) result }
{
    let Ok(texts) = texts_of(rt.alloc(), words) else {
        return NO_MEMORY;
    };
    let (alloc, input) = (rt.alloc(), rt.stdin());
    let (mut out, mut err) = (HostSink::new(rt.stdout()), HostSink::new(rt.stderr()));
    answer_words(alloc, &texts, rt, input, &mut out, &mut err)
}

fn main(rt: HostRuntime) -> ExitCode {
    match words_of(&rt) {
        Ok(words) => ExitCode::from(status_of(rt, &words)),
        Err(status) => ExitCode::from(status),
    }
}
