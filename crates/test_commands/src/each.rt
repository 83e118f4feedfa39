//! Calls of which each call on an object fails in turn.

use crate::call::{Came, Failing, made};
use std::alloc::{AllocError, Global};
use std::io;
use test_rows::RowFault;

/// No more calls than this are tried.
const MOST: u64 = 100_000;

/// What was put on out or on err, beside what is put there where no call fails.
#[derive(Clone, Copy, PartialEq, Eq)]
enum Held {
    Nothing,
    Whole,
    Front,
    ReadFault,
    WriteFault,
    Other,
}

/// A status with what was put on out and on err.
#[derive(Clone, Copy, PartialEq, Eq)]
struct Answer {
    status: u8,
    out: Held,
    err: Held,
}

/// The list of the number of the call that fails, if it is one on the object of this mark.
fn listed(alloc: Global, is_of_mark: bool, number: u64) -> Result<Vec<u64>, AllocError> {
    let mut numbers = Vec::new(alloc);
    if is_of_mark {
        numbers.push(number)?;
    }
    Ok(numbers)
}

/// One call on the object of a mark fails.
fn failing_at(alloc: Global, mark: &str, number: u64) -> Result<Failing, AllocError> {
    Ok(Failing {
        files: listed(alloc, mark == "/", number)?,
        input: listed(alloc, mark == "!", number)?,
        out: listed(alloc, mark == "^", number)?,
        err: listed(alloc, mark == "?", number)?,
    })
}

fn held_of(bytes: &[u8], good: &[u8]) -> Held {
    if bytes.is_empty() {
        Held::Nothing
    } else if bytes == good {
        Held::Whole
    } else if good.starts_with(bytes) {
        Held::Front
    } else {
        Held::Other
    }
}

/// What stands on err may be the line of a fault; that of a fault of err itself stands behind a front of the line that was put.
fn line_of(bytes: &[u8], good: &[u8]) -> Held {
    if bytes == b"read fault\n".as_slice() {
        return Held::ReadFault;
    }
    match bytes.strip_suffix(b"write fault\n".as_slice()) {
        Some(front) if good.starts_with(front) => Held::WriteFault,
        _ => held_of(bytes, good),
    }
}

fn answer_of(came: &Came, good: &Came) -> Answer {
    Answer {
        status: came.status,
        out: held_of(&came.out, &good.out),
        err: line_of(&came.err, &good.err),
    }
}

fn name_of(held: Held) -> &'static str {
    match held {
        Held::Nothing => "nothing",
        Held::Whole => "whole",
        Held::Front => "a front",
        Held::ReadFault => "read fault",
        Held::WriteFault => "write fault",
        Held::Other => "other bytes",
    }
}

fn print_answer(rt: &HostRuntime, answer: Answer) -> io::Result<()> {
    println!(rt;
        "  {}, out {}, err {}",
        answer.status,
        name_of(answer.out),
        name_of(answer.err)
    )
}

/// Prints the answers where one call more fails from time to time, each that isn't that before it, until none fails.
fn show_answers(
    rt: &HostRuntime,
    mark: &str,
    line: &str,
    last: &[u8],
    good: &Came,
) -> Result<(), RowFault> {
    let alloc = rt.alloc();
    let whole = answer_of(good, good);
    let mut before = whole;
    for number in 0..MOST {
        let Some(came) = made(alloc, line, last, failing_at(alloc, mark, number)?)? else {
            break;
        };
        let answer = answer_of(&came, good);
        if answer == whole {
            break;
        }
        if answer != before {
            print_answer(rt, answer)?;
        }
        before = answer;
    }
    Ok(print_answer(rt, whole)?)
}

/// Prints what comes of a call where the first call on the object of a mark fails, then the second, until none does: the status, and
/// whether out and err hold all that is put there then, or a front of it. Behind them stands what comes where none fails.
pub fn show_each(rt: &HostRuntime, row: &str, last: &[u8]) -> Result<(), RowFault> {
    let alloc = rt.alloc();
    let Some((mark, line)) = row.split_once(' ') else {
        return Err(RowFault::Malformed);
    };
    let none = failing_at(alloc, "", 0)?;
    match made(alloc, line, last, none)? {
        Some(good) => {
            println!(*rt; "each {mark}")?;
            show_answers(rt, mark, line, last, &good)
        }
        None => Err(RowFault::Malformed),
    }
}
