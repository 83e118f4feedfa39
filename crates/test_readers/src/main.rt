//! Shows on a table what bounds of loops, certificates, microprograms and codes are read as.
//!
//! Each line of the input is a word, a space and a text, in which `|` stands for a line feed and `^` for a carriage return:
//!
//! - `bounds`: the bounds of the loops at the places 0 and 4 of the methods `a` and `b`, or the line that is refused.
//! - `asm`: the words in hexadecimal digits, then each entry, the raise entry and each constant that isn't 0, and the branches
//!   that have turns; or the line that is refused, and the rule; or how many words there are.
//! - `listing`: whether the text of the shipped microcode is assembled to its words, entries, raise entry, constants and turns.
//! - `cert`: the version of a certificate, its method, its sections with the numbers of their nodes and the nodes of their loops, its
//!   bound, and then `written` where it, put together anew of its parts, is written as the text, with a line feed at its end; or the
//!   line that is refused. Of a text behind a `#` only the last is shown.
//! - `code`: bytes in decimal, and a line for each of their instructions: the place, the mnemonic, the length, the two numbers that
//!   it has, and where control goes after it; whether it may raise; its first target behind `->`, and each case of a switch as key
//!   and target. Where the code isn't a whole instruction, the line says why. These answers were worked out by hand from the JVM
//!   Specification SE 8, 6.5.
#![tactic(auto)]

mod assembling;
mod bounds;
mod certs;
mod codes;

use std::alloc::{AllocError, Global};
use std::io;
use test_rows::RowFault;

/// The most bytes of a text.
const MOST: usize = 33_554_432;

/// The text that a row stands for.
fn text_of(alloc: Global, row: &[u8]) -> Result<Vec<u8>, AllocError> {
    row.iter()
        .map(|byte| match *byte {
            b'|' => b'\n',
            b'^' => b'\r',
            other => other,
        })
        .collect(alloc)
}

/// Shows what a text is read as.
fn show_text(rt: &HostRuntime, word: &str, row: &str) -> Result<(), RowFault> {
    let text = text_of(rt.alloc(), row.as_bytes())?;
    if text.len() > MOST {
        return Err(RowFault::Malformed);
    }
    match word {
        "bounds" => Ok(bounds::show_bounds(rt, &text)?),
        "cert" => Ok(certs::show_row(rt, &text)?),
        "asm" => Ok(assembling::show_assembled(rt, &text)?),
        _ => Err(RowFault::Malformed),
    }
}

/// Does what a line says.
fn show(rt: &HostRuntime, line: &str) -> Result<(), RowFault> {
    let (word, row) = line.split_once(' ').unwrap_or((line, ""));
    match word {
        "code" => codes::show_code(rt, row),
        "listing" => Ok(assembling::show_listing(rt)?),
        _ => show_text(rt, word, row),
    }
}

/// Does what a line says, or says that it is no row.
fn show_line(rt: &HostRuntime, line: &str) -> io::Result<()> {
    match show(rt, line) {
        Ok(()) => Ok(()),
        Err(fault) => fault.told(rt),
    }
}

fn main(rt: HostRuntime) -> io::Result<()> {
    for line in rt.lines(rt.alloc()) {
        show_line(&rt, line?.as_str())?;
    }
    Ok(())
}
