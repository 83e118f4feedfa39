//! Prints the text of a netlist that rows give, or runs it, or prints `refused` where it isn't well formed.
//!
//! Each line of the input is numbers, of which the first says what the others are:
//!
//!     0 WIDTH                         an input
//!     1 FIRST NET                     a register
//!     2 WORDS NET NET NET NET NET WORD ..    a block RAM: when, where and what it writes, when and where it reads, its first words
//!     3 NET                           an output
//!     4 NET                           a wire: not
//!     5 OPERATOR NET NET              a wire: and, or, xor, add, sub, mul, equal, less, left, right, by the numbers from 0 on
//!     6 LOW WIDTH NET                 a wire: a part
//!     7 NET NET                       a wire: a join
//!     8 NET NET NET                   a wire: a choice
//!     9 WIDTH NET ROW ..              a wire: a table
//!     10 WORD ..                      the circuit is to be run; the words in the output registers of its block RAMs at the start
//!     11 WORD ..                      a clock: the words of the inputs, and those that block RAMs give where their places don't tell
//!
//! A NET is three numbers: its width, what drives it (0 a constant, 1 an input, 2 a register, 3 a block RAM, 4 a wire), and the word or
//! the number of that. The ports are named `in_a`, `in_b` and so on, and `out_a`. A circuit that is run puts a line of words for each
//! clock: what is put out before its edge. `tests/netlist` gives such rows, and runs the texts in simulators of Verilog.
#![tactic(auto)]

mod rows;
mod running;

use netlist::{Netlist, is_netlist};
use netlist_text::write_netlist;
use rows::Draft;
use running::Course;
use std::io::{self, Write};
use test_rows::RowFault;

/// Puts the text of a netlist.
fn show(rt: &HostRuntime, n: &Netlist) -> Result<(), RowFault> {
    let text = write_netlist(rt.alloc(), n)?;
    Ok(rt.stdout().write_all(&text)?)
}

/// Puts what the rows ask for: a text, or what is put out at each clock.
fn answer(rt: &HostRuntime, n: &Netlist, course: &Course) -> Result<(), RowFault> {
    if !is_netlist(n) {
        return Ok(println!(rt; "refused")?);
    }
    match course.start() {
        Some(start) => running::run(rt, n, start, course.clocks()),
        None => show(rt, n),
    }
}

/// Adds the part or the clock that a line says.
fn add(
    rt: &HostRuntime,
    draft: &mut Draft,
    course: &mut Course,
    line: &str,
) -> Result<(), RowFault> {
    let mut row = Vec::new(rt.alloc());
    for word in line.split_whitespace() {
        row.push(word.parse::<u64>()?)?;
    }
    match row.as_slice() {
        [10, words @ ..] => course.begin(rt.alloc(), words),
        [11, words @ ..] => course.add(rt.alloc(), words),
        _ => draft.add(rt.alloc(), &row),
    }
}

fn main(rt: HostRuntime) -> io::Result<()> {
    let mut draft = Draft::new(rt.alloc());
    let mut course = Course::new(rt.alloc());
    for line in rt.lines(rt.alloc()) {
        if let Err(fault) = add(&rt, &mut draft, &mut course, line?.as_str()) {
            fault.told(&rt)?;
        }
    }
    match answer(&rt, &draft.into_netlist(rt.alloc())?, &course) {
        Ok(()) => Ok(()),
        Err(fault) => fault.told(&rt),
    }
}
