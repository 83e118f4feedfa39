//! Prints what is found of small graphs: their loops, their basic blocks, the sections of their greatest
//! walks, and what the check of a section says. What it must print was worked out by hand from the
//! definitions.
//!
//! Each line of the input is a word and the fields of a graph, with a `|` between them: how many nodes
//! there are; the edges, rising; the exits, rising; behind `nest`, `blocks` and `counts` (how many loops and
//! blocks there are) that is all. Behind the other words there are the cost of each node, the bound of each
//! loop and what an entry of each loop loads, `-` for a region that doesn't fit: `value` is the greatest
//! walk's value alone, `longest` has its section, too, and `regions` the loops' kinds. `check` and `index`
//! have a section: the listed nodes with their potentials, as `0:76`, and the loops with what an iteration
//! costs and the members, as `1:7:1,2`. At last `regions`, `check` and `index` have for each loop `1` where
//! it is a region, else `0`. In place of a graph, `chain` has how many nodes follow one another.
//!
//! The rows of `walks` have the fields of `longest`. What is found is the greatest walk from node 0 to an exit
//! that keeps all bounds, and whether its section is accepted; the greatest walk whatever iterations cost, and
//! whether those of the loops that hold a node exceed 64 bits together; and the greatest of all walks to an
//! exit, made one after another. Their values were found by brute force from the definitions, with no code of
//! this repository, by `tests/expected/walks.py`. So in
//!
//!     walks | 4 | 0-1 1-2 1-3 2-1 | 3 | 2 3 4 1 | 10 | 100
//!
//! the nodes 1 and 2 are a loop. The greatest walk enters it once, with the load 100, makes ten iterations and leaves it for the
//! exit: 2 + 100 + 10 * (3 + 4) + 3 + 1 = 176.
//!
//! The rows of `prices` have the fields of `longest` and facts: `2<=3` says that node 2 is visited at most three times,
//! and `2<=3/0` that it is from each entry of loop 0 to the next. What is printed is the greatest walk's value without
//! prices of the facts, and with those that are found. Their values were worked out by hand.
//!
//! A section behind `check` goes through both checks, with an index of the section's loops and without, and where they
//! differ, that is printed; behind `index` it goes through the first alone. `bench/graphs.py` gives rows of large graphs.
//!
//! The later rows of `check` are random sections with faults of every kind. What they and the rows of
//! `regions` must print was found by a program of its own, from the definitions, with no code of this
//! repository. The last five rows are three groups of eight nodes with a loop in a loop, whose greatest walk makes
//! 28 steps in each group, and four interleaved loops, at last with two that cross.
#![tactic(auto)]

mod found;
mod prices;
mod question;
mod show;
mod walks;

use found::{Asked, show_chain, show_found};
use question::Question;
use show::{show_blocks, show_check, show_counts, show_nest};
use std::io;
use test_rows::RowFault;

/// Prints what is found of what a line asks.
fn answer(rt: &HostRuntime, question: &Question) -> io::Result<()> {
    match question {
        Question::Nest(graph) => show_nest(rt, graph),
        Question::Blocks(graph) => show_blocks(rt, graph),
        Question::Counts(graph) => show_counts(rt, graph),
        Question::Value(problem) => show_found(rt, problem, Asked::Value),
        Question::Longest(problem) => show_found(rt, problem, Asked::Section),
        Question::Regions(problem, regions) => show_found(rt, problem, Asked::Regions(regions)),
        Question::Walks(problem) => show_found(rt, problem, Asked::Walks),
        Question::Prices(problem, facts) => show_found(rt, problem, Asked::Prices(facts)),
        Question::Check(problem, section, both) => show_check(rt, problem, section, *both),
        Question::Chain(nodes) => show_chain(rt, *nodes),
    }
}

/// Answers a line.
fn answer_line(rt: &HostRuntime, line: &str) -> Result<(), RowFault> {
    let question = Question::parse(rt.alloc(), line)?;
    answer(rt, &question).map_err(RowFault::Output)
}

/// Prints a line and its number, and answers it or says that it is no row.
fn show_line(rt: &HostRuntime, number: u64, line: &str) -> io::Result<()> {
    println!(*rt; "{number}: {line}")?;
    match answer_line(rt, line) {
        Ok(()) => Ok(()),
        Err(fault) => fault.told(rt),
    }
}

fn main(rt: HostRuntime) -> io::Result<()> {
    for (number, line) in (1..u64::MAX).zip(rt.lines(rt.alloc())) {
        show_line(&rt, number, line?.as_str())?;
    }
    Ok(())
}
