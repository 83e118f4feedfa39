//! Shows on a table what the parts of the machine and the machine do where memory is found, cycle by cycle and boundary by
//! boundary: each line of the input is something to do, and the output has a line or more of what came of it.
//!
//! - `stack PLACE WORD` writes a word into 1,024 on-chip words, and reads words at both ends.
//! - `read WAIT PLACE` reads a place of the words 5, 6, 7 and 8, and counts the cycles to the pushed value.
//! - `past` writes and reads past the end of four words.
//! - `settings` shows the settings that nobody chose.
//! - `cache BLOCKS WORDS M:N ..` fetches methods of N words into a method cache, and shows the blocks.
//! - `bare HEX` reads a bare image.
//! - `run HEX .. at CLOCK ..` runs a bare image, whose code is given, and shows the registers at these clocks.
//! - `image WORD .. at CLOCK ..` does so with an image of words, of which the first 16 and boot's record are given.
//!
//! The registers of the machine were worked out by hand from the definition of a cycle. The other rows compare it with states of
//! programs that were worked out from the JVM Specification SE 8 by another program, `tests/expected/heap.py` for those with objects:
//!
//! - `course NAME MEMORY WORD ..` gives the words of an image, and begins its run in a memory of so many words.
//! - `methods PLACE ..` has the places of the records of its methods, by number; without it there is boot's alone.
//! - `at FRAME / FRAME ..` is the state at the next boundary, the first frame first. A frame is `METHOD PC W .. : W ..`: the
//!   words of its local variables, `?` for any, and those of its operands.
//! - `raise PLACE` says that the object at this place is being raised at the next boundary.
//! - `free PLACE` says where the next object would be made, at the boundary before.
//! - `ended BYTE ..` says that the machine has halted as ended, and what it has put out.
#![tactic(auto)]

mod course;
mod device;
mod frames;
mod machines;
mod parts;
mod words;

use course::Course;
use std::io;
use test_rows::RowFault;

/// Does what a line says of a machine on its way.
fn follow(
    rt: &HostRuntime,
    course: &mut Course,
    word: &str,
    rest: &[&str],
) -> Result<(), RowFault> {
    match word {
        "methods" => course.set_methods(rt.alloc(), rest),
        "at" => course.compare_frames(rt, rest),
        "raise" => course.compare_raised(rt, rest),
        "free" => course.compare_free(rt, rest),
        "ended" => course.show_end(rt, rest),
        _ => Err(RowFault::Malformed),
    }
}

/// Does what a line says of a part of the machine, or of a machine at some clocks.
fn show(rt: &HostRuntime, word: &str, rest: &[&str]) -> Result<(), RowFault> {
    match word {
        "stack" => parts::show_stack(rt, rest),
        "read" => parts::show_read(rt, rest),
        "past" => parts::show_past(rt),
        "settings" => parts::show_settings(rt),
        "cache" => parts::show_methods(rt, rest),
        "bare" => machines::show_bare(rt, rest),
        "run" => machines::show_run(rt, rest),
        "image" => machines::show_image(rt, rest),
        _ => Err(RowFault::Malformed),
    }
}

/// Begins the run of an image.
fn begin(rt: &HostRuntime, course: &mut Option<Course>, rest: &[&str]) -> Result<(), RowFault> {
    let [name, memory, image @ ..] = rest else {
        return Err(RowFault::Malformed);
    };
    *course = Some(Course::new(rt.alloc(), name, memory, image)?);
    Ok(())
}

/// Does what the words of a line say.
fn do_words(rt: &HostRuntime, course: &mut Option<Course>, words: &[&str]) -> Result<(), RowFault> {
    let [word, rest @ ..] = words else {
        return Err(RowFault::Malformed);
    };
    if *word == "course" {
        return begin(rt, course, rest);
    }
    if !matches!(*word, "methods" | "at" | "raise" | "free" | "ended") {
        return show(rt, word, rest);
    }
    match course {
        Some(course) => follow(rt, course, word, rest),
        None => Err(RowFault::Malformed),
    }
}

/// Does what a line says, or says that it is no row.
fn do_line(rt: &HostRuntime, course: &mut Option<Course>, line: &str) -> io::Result<()> {
    let words: Vec<&str> = line.split_whitespace().collect(rt.alloc())?;
    match do_words(rt, course, &words) {
        Ok(()) => Ok(()),
        Err(fault) => fault.told(rt),
    }
}

/// Does what all lines say.
fn do_lines(rt: &HostRuntime, course: &mut Option<Course>) -> io::Result<()> {
    for line in rt.lines(rt.alloc()) {
        do_line(rt, course, line?.as_str())?;
    }
    Ok(())
}

fn main(rt: HostRuntime) -> io::Result<()> {
    do_lines(&rt, &mut None)
}
