//! A call of the top call over objects in memory, and how it is printed.

use crate::row::{files_of, input_of, numbers_of, words_of};
use jop_cli::jop;
use jop_core::NoWatch;
use outside::{MemFiles, MemSink, MemSource};
use std::alloc::{AllocError, Global};
use std::io;
use test_rows::RowFault;

/// The numbers of the calls that fail: on the files, on the input, on out and on err.
#[derive(Drop)]
pub struct Failing {
    pub files: Vec<u64>,
    pub input: Vec<u64>,
    pub out: Vec<u64>,
    pub err: Vec<u64>,
}

/// What came of a call: its status, and what was put on out and on err.
#[derive(Drop)]
pub struct Came {
    pub status: u8,
    pub out: Vec<u8>,
    pub err: Vec<u8>,
}

/// What comes of a call of these words over objects in memory, where they are few enough for one.
fn called(
    alloc: Global,
    words: &[&str],
    files: Vec<Option<Vec<u8>>>,
    input: Vec<u8>,
    failing: Failing,
) -> Result<Option<Came>, AllocError> {
    if words.len() >= 1 << 32 || files.len() != words.len() {
        return Ok(None);
    }
    let mut files = MemFiles::new(files, failing.files);
    let mut input = MemSource::new(input, failing.input);
    let mut out = MemSink::new(alloc, failing.out);
    let mut err = MemSink::new(alloc, failing.err);
    let outcome = jop(
        alloc,
        words,
        &mut files,
        &mut input,
        &mut out,
        &mut err,
        &mut NoWatch,
    );
    Ok(Some(Came {
        status: outcome.status(),
        out: out.held().to_vec(alloc)?,
        err: err.held().to_vec(alloc)?,
    }))
}

/// Makes the call of a line, of which these calls on its objects fail, where its words are few enough for one.
pub fn made(
    alloc: Global,
    line: &str,
    last: &[u8],
    failing: Failing,
) -> Result<Option<Came>, RowFault> {
    let words = words_of(alloc, line)?;
    let files = files_of(alloc, line, last)?;
    let input = input_of(alloc, line)?;
    Ok(called(alloc, &words, files, input, failing)?)
}

/// The sum of bytes, each added to 31 times the sum before it, in 32 bits.
fn sum_of(bytes: &[u8]) -> u32 {
    let mut sum: u32 = 0;
    for byte in bytes {
        sum = sum.wrapping_mul(31).wrapping_add(*byte as u32);
    }
    sum
}

/// Prints what was put out: few bytes themselves, of more how many and their sum.
fn print_out(rt: &HostRuntime, out: &[u8]) -> io::Result<()> {
    if out.len() > 64 {
        return println!(rt; "{} bytes, sum {:08x}", out.len(), sum_of(out));
    }
    for byte in out {
        print!(rt; "{:02x}", *byte)?;
    }
    println!(rt; ".")
}

/// Prints the lines of a trace: of one with more than 24 lines the first eight and the last eight.
fn print_lines(rt: &HostRuntime, text: &str) -> io::Result<()> {
    let count = text.lines().count();
    for (number, line) in text.lines().enumerate() {
        if count <= 24 || number < 8 || count.saturating_sub(number) <= 8 {
            println!(rt; "  {line}")?;
        }
    }
    Ok(())
}

/// Prints words, what came of their call, and what `out` and `err` hold.
fn print_call(rt: &HostRuntime, words: &[&str], came: &Came) -> io::Result<()> {
    for word in words {
        print!(rt; "{word} ")?;
    }
    print!(rt; "-> {}, out ", came.status)?;
    print_out(rt, &came.out)?;
    let line = std::str::from_utf8(&came.err).unwrap_or("no text");
    println!(rt; "  {line:?}")?;
    if let ["trace", ..] = words {
        print_lines(rt, std::str::from_utf8(&came.out).unwrap_or("no text"))?;
    }
    Ok(())
}

/// The numbers of the calls that a line says to fail.
fn failing_of(alloc: Global, line: &str) -> Result<Failing, AllocError> {
    Ok(Failing {
        files: numbers_of(alloc, line, '/')?,
        input: numbers_of(alloc, line, '!')?,
        out: numbers_of(alloc, line, '^')?,
        err: numbers_of(alloc, line, '?')?,
    })
}

/// Makes the call of a line, prints what comes of it, and gives what was put out.
pub fn show(rt: &HostRuntime, line: &str, last: &[u8]) -> Result<Vec<u8>, RowFault> {
    let alloc = rt.alloc();
    let words = words_of(alloc, line)?;
    let Some(came) = made(alloc, line, last, failing_of(alloc, line)?)? else {
        println!(*rt; "too many words")?;
        return Ok(Vec::new(alloc));
    };
    print_call(rt, &words, &came)?;
    Ok(came.out)
}
