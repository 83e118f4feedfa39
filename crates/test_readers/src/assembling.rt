//! Microprograms.
ghost use Rattle.std.specs.Prelude.{ℕ, ◌≤◌, length};
ghost use Rattle.base.specs.Sizes.{longest_file};

use microcode::isa::Turns;
use microcode::{CONSTANTS, ENTRIES, TURNS, WORDS, raise_entry};
use microcode_asm::{AsmFault, Rom, assemble};
use microcode_listing::listing;
use std::alloc::AllocError;
use std::io;

/// Shows the words of a microprogram.
fn show_words(rt: &HostRuntime, rom: &Rom) -> io::Result<()> {
    for word in rom.words.as_slice() {
        print!(rt; " {word:04x}")?;
    }
    Ok(())
}

/// Shows where the instructions of a microprogram begin, and where a raise does.
fn show_entries(rt: &HostRuntime, rom: &Rom) -> io::Result<()> {
    for (op, entry) in rom.entries.as_slice().iter().enumerate() {
        if *entry != 0 {
            print!(rt; " entry {op}={entry}")?;
        }
    }
    match rom.raise {
        0 => Ok(()),
        raise => print!(rt; " raise={raise}"),
    }
}

/// Shows the constants of a microprogram that aren't 0.
fn show_constants(rt: &HostRuntime, rom: &Rom) -> io::Result<()> {
    for (number, value) in rom.consts.as_slice().iter().enumerate() {
        if *value != 0 {
            print!(rt; " const {number}={value}")?;
        }
    }
    Ok(())
}

/// Shows how often the branches of a microprogram are taken.
fn show_turns(rt: &HostRuntime, rom: &Rom) -> io::Result<()> {
    for (from, turns) in rom.turns.as_slice() {
        match *turns {
            Turns::Count(count) => print!(rt; " turns {from}={count}")?,
            Turns::PerPair => print!(rt; " turns {from}=pairs")?,
            Turns::PerEntry => print!(rt; " turns {from}=entries")?,
        }
    }
    Ok(())
}

/// Shows a microprogram.
fn show_rom(rt: &HostRuntime, rom: &Rom) -> io::Result<()> {
    print!(rt; "asm")?;
    show_words(rt, rom)?;
    show_entries(rt, rom)?;
    show_constants(rt, rom)?;
    show_turns(rt, rom)?;
    println!(rt;)
}

/// Shows what a microprogram is assembled to.
pub fn show_assembled(rt: &HostRuntime, text: &[u8]) -> io::Result<()>
    requires { length text.now ≤ longest_file }
{
    match assemble(rt.alloc(), text) {
        Ok(rom) => show_rom(rt, &rom),
        Err(AsmFault::Line(line, kind)) => println!(rt; "line={line} {kind:?}"),
        Err(AsmFault::TooLong(words)) => println!(rt; "too long words={words}"),
        Err(AsmFault::NoMemory) => Err(io::Error::from(AllocError)),
    }
}

/// Shows which parts of a microprogram are those of the shipped one.
fn show_shipped(rt: &HostRuntime, rom: &Rom) -> io::Result<()> {
    let words = rom.words.as_slice() == WORDS.as_slice();
    let entries = rom.entries.as_slice() == ENTRIES.as_slice();
    let raise = rom.raise == raise_entry();
    let consts = rom.consts.as_slice() == CONSTANTS.as_slice();
    let turns = rom.turns.as_slice() == TURNS.as_slice();
    println!(rt;
        "listing words={words} entries={entries} raise={raise} consts={consts} turns={turns}"
    )
}

/// Shows what the text of the shipped microcode is assembled to.
pub fn show_listing(rt: &HostRuntime) -> io::Result<()> {
    let text = match listing(rt.alloc()) {
        Ok(text) => text,
        Err(_) => return Err(io::Error::from(AllocError)),
    };
    if text.len() > crate::MOST {
        return println!(rt; "too long");
    }
    match assemble(rt.alloc(), &text) {
        Ok(rom) => show_shipped(rt, &rom),
        Err(AsmFault::NoMemory) => Err(io::Error::from(AllocError)),
        Err(fault) => println!(rt; "{fault}"),
    }
}
