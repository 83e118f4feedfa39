//! Prints the graphs of methods, their loops, what their calls may run, the methods that run while a method or a loop does, and orders in
//! which targets stand before their callers. What must be printed was worked out from the class files by `tests/expected/graphs`, which uses
//! nothing of this repository.
//!
//! A line of the input is a word, a title, the class whose `main` is run, the names of methods with a `,` between them, and class files in
//! hexadecimal digits. `show` prints what is found of each method but those of the core classes, `all` of these too, and then an order of
//! each named method. The other words are for measurements: `link` says that the files are a program, `table` how many methods have code,
//! and `order` prints the orders alone.
//!
//! A node is printed as its place, with an `r` where it is the raise step there.
#![tactic(auto)]

mod calls;
mod graphs;
mod program;
mod regions;

use bytecode_verifier::Verified;
use calls::order_text;
use flow_table::flow_of;
use graphs::show_methods;
use program::verified;
use std::io;
use test_rows::RowFault;

/// Prints what a word asks of a program.
fn answer(rt: &HostRuntime, word: &str, program: &Verified, roots: &str) -> Result<(), RowFault> {
    program.is_typed();
    let flow = flow_of(rt.alloc(), program.program())?;
    if word == "table" {
        println!(*rt; "{} methods", flow.method_count())?;
        return Ok(());
    }
    if word != "order" {
        show_methods(rt, &flow, word == "all")?;
    }
    for root in roots.split(',') {
        let text = order_text(rt.alloc(), &flow, root)?;
        print!(*rt; "{text}")?;
    }
    Ok(())
}

/// Answers a line.
fn answer_line(rt: &HostRuntime, line: &str) -> Result<(), RowFault> {
    let words: Vec<&str> = line.split(' ').collect(rt.alloc())?;
    let [word, title, main, roots, files @ ..] = words.as_slice() else {
        return Err(RowFault::Malformed);
    };
    println!(*rt; "{title}")?;
    let program = verified(rt.alloc(), main, files)?;
    let answered = match *word {
        "link" => Ok(()),
        word => answer(rt, word, &program, roots),
    };
    drop(program);
    answered
}

fn main(rt: HostRuntime) -> io::Result<()> {
    for line in rt.lines(rt.alloc()) {
        if let Err(fault) = answer_line(&rt, line?.as_str()) {
            fault.told(&rt)?;
        }
    }
    Ok(())
}
