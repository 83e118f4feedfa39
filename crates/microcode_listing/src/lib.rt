//! The text of the microcode: what `microcode_asm` assembles to the words, entries, constants and turns of `microcode`.
//!
//! The constants that aren't 0 come first, and then the words. A row begins with its label and, as a comment, its address;
//! then come the opcodes that begin there, each with its name as a comment.
#![tactic(auto)]

ghost use Rattle.std.specs.Prelude.{◌≡◌, ◌++◌, ◌≤◌, length, Some, OnOk, IfOk, codes};
ghost use Rattle.microcode_listing.specs.Listing.{numbered, with_number, constant_text, entry_text, raise_text, opcodes_text, head_text, turns_text};
ghost use Rattle.microcode_listing.specs.Listing.{target_text, body_text, flag_text, micro_text, word_text, listing_text};
ghost use Rattle.microcode_listing.specs.Names.{row_text};
ghost use Rattle.microcode.specs.Isa.Words.{micro_of};

mod laws;
mod names;

use ascii_text::put_u64;
use base::NoMemory;
pub use laws::the_listing_is_assembled;
use microcode::isa::{Body, Micro, Turns, decode};
use microcode::{CONSTANTS, ENTRIES, RAISE, WORDS, turns};
use names::{operation_name, row_name};
use std::alloc::Global;

/// The text of the microcode.
#[tactic(auto, unfolding(crate::specs::Listing::listing_text))]
pub fn listing(alloc: Global) -> Result<Vec<u8>, NoMemory>
    ensures { IfOk result (λ text. text.items ≡ listing_text) }
{
    let mut out = Vec::new(alloc);
    put_constants(&mut out)?;
    put_words(&mut out)?;
    Ok(out)
}

fn put(out: &mut Vec<u8>, text: &str) -> Result<(), NoMemory>
    ensures { OnOk result (out.new.items ≡ out.old.items ++ text.now) }
{
    out.extend_from_slice(text.as_bytes())?;
    Ok(())
}

/// A word, a number and what is behind them.
fn put_numbered(out: &mut Vec<u8>, name: &str, number: u64, behind: &str) -> Result<(), NoMemory>
    ensures { OnOk result (out.new.items ≡ out.old.items ++ with_number name.now number behind.now) }
{
    put(out, name)?;
    put_u64(out, number)?;
    put(out, behind)
}

#[tactic(auto, unfolding(crate::specs::Listing::constant_text))]
fn put_constant(out: &mut Vec<u8>, number: u64, value: u32) -> Result<(), NoMemory>
    ensures { OnOk result (out.new.items ≡ out.old.items ++ constant_text number value) }
{
    if value == 0 {
        return Ok(());
    }
    put_numbered(out, ".const ", number, "")?;
    put_numbered(out, " ", u64::from(value), "\n")
}

fn put_constants(out: &mut Vec<u8>) -> Result<(), NoMemory>
    ensures { OnOk result (out.new.items ≡ out.old.items ++ numbered constant_text 0 CONSTANTS) }
{
    put_values(out, &CONSTANTS)
}

fn put_values(out: &mut Vec<u8>, values: &[u32]) -> Result<(), NoMemory>
    ensures { OnOk result (out.new.items ≡ out.old.items ++ numbered constant_text 0 values.now) }
{
    for (number, value) in values.iter().enumerate() {
        put_constant(out, number as u64, *value)?;
    }
    Ok(())
}

fn put_words(out: &mut Vec<u8>) -> Result<(), NoMemory>
    ensures { OnOk result (out.new.items ≡ out.old.items ++ numbered word_text 0 WORDS) }
{
    put_words_of(out, &WORDS)
}

fn put_words_of(out: &mut Vec<u8>, words: &[u16]) -> Result<(), NoMemory>
    requires { length words.now ≤ 2048 }
    ensures { OnOk result (out.new.items ≡ out.old.items ++ numbered word_text 0 words.now) }
{
    for (address, word) in words.iter().enumerate() {
        put_row_word(out, address as u16, *word)?;
    }
    Ok(())
}

/// A word, and what stands before it.
#[tactic(auto, unfolding(crate::specs::Listing::word_text))]
fn put_row_word(out: &mut Vec<u8>, address: u16, word: u16) -> Result<(), NoMemory>
    ensures { OnOk result (out.new.items ≡ out.old.items ++ word_text address word) }
{
    put_head(out, address)?;
    put_turns(out, turns(address))?;
    put_word(out, word)
}

/// What stands before the first word of a row.
#[tactic(auto, unfolding(crate::specs::Listing::head_text))]
fn put_head(out: &mut Vec<u8>, address: u16) -> Result<(), NoMemory>
    ensures { OnOk result (out.new.items ≡ out.old.items ++ head_text address (row_text address)) }
{
    match row_name(address) {
        Some(name) => put_row(out, address, name),
        None => Ok(()),
    }
}

#[tactic(auto, unfolding(crate::specs::Listing::head_text))]
fn put_row(out: &mut Vec<u8>, address: u16, name: &str) -> Result<(), NoMemory>
    ensures { OnOk result (out.new.items ≡ out.old.items ++ head_text address (Some name.now)) }
{
    put(out, name)?;
    put_numbered(out, ": ; address ", address as u64, "\n")?;
    put_opcodes(out, address)
}

/// That an address is where raising begins, and the opcodes whose row begins there.
#[tactic(auto, unfolding(crate::specs::Listing::opcodes_text))]
fn put_opcodes(out: &mut Vec<u8>, address: u16) -> Result<(), NoMemory>
    ensures { OnOk result (out.new.items ≡ out.old.items ++ opcodes_text address) }
{
    put_raise(out, address)?;
    put_entries(out, address)
}

#[tactic(auto, unfolding(crate::specs::Listing::raise_text))]
fn put_raise(out: &mut Vec<u8>, address: u16) -> Result<(), NoMemory>
    ensures { OnOk result (out.new.items ≡ out.old.items ++ raise_text address) }
{
    if address == RAISE {
        put(out, ".raise\n")
    } else {
        Ok(())
    }
}

fn put_entries(out: &mut Vec<u8>, address: u16) -> Result<(), NoMemory>
    ensures { OnOk result (out.new.items ≡ out.old.items ++ numbered (entry_text address) 0 ENTRIES) }
{
    put_entries_of(out, address, &ENTRIES)
}

fn put_entries_of(out: &mut Vec<u8>, address: u16, entries: &[u16]) -> Result<(), NoMemory>
    requires { length entries.now ≤ 256 }
    ensures { OnOk result (out.new.items ≡ out.old.items ++ numbered (entry_text address) 0 entries.now) }
{
    for (op, entry) in entries.iter().enumerate() {
        put_entry(out, address, op as u8, *entry)?;
    }
    Ok(())
}

#[tactic(auto, unfolding(crate::specs::Listing::entry_text))]
fn put_entry(out: &mut Vec<u8>, address: u16, op: u8, entry: u16) -> Result<(), NoMemory>
    ensures { OnOk result (out.new.items ≡ out.old.items ++ entry_text address op entry) }
{
    if entry != address {
        return Ok(());
    }
    put_numbered(out, ".entry ", u64::from(op), " ; ")?;
    put(out, opcodes::name(op))?;
    put(out, "\n")
}

/// The turns of a branch, before it.
#[tactic(auto, unfolding(crate::specs::Listing::turns_text))]
fn put_turns(out: &mut Vec<u8>, turns: Option<Turns>) -> Result<(), NoMemory>
    ensures { OnOk result (out.new.items ≡ out.old.items ++ turns_text turns) }
{
    match turns {
        Some(Turns::Count(count)) => put_numbered(out, ".turns ", u64::from(count), "\n"),
        Some(Turns::PerPair) => put(out, ".turns pairs\n"),
        Some(Turns::PerEntry) => put(out, ".turns entries\n"),
        None => Ok(()),
    }
}

#[tactic(auto, unfolding(crate::specs::Listing::micro_text))]
fn put_word(out: &mut Vec<u8>, word: u16) -> Result<(), NoMemory>
    ensures { OnOk result (out.new.items ≡ out.old.items ++ micro_text (micro_of word)) }
{
    match decode(word) {
        Some(micro) => put_micro(out, micro),
        None => Ok(()),
    }
}

#[tactic(auto, unfolding(crate::specs::Listing::micro_text))]
fn put_micro(out: &mut Vec<u8>, micro: Micro) -> Result<(), NoMemory>
    ensures { OnOk result (out.new.items ≡ out.old.items ++ micro_text (Some micro)) }
{
    put(out, "  ")?;
    put_body(out, micro.body)?;
    put_flags(out, micro)
}

fn put_flags(out: &mut Vec<u8>, micro: Micro) -> Result<(), NoMemory>
    ensures { OnOk result (out.new.items ≡ out.old.items ++ (flag_text micro.opd (codes " opd") ++ (flag_text micro.nxt (codes " nxt") ++ codes "\n"))) }
{
    put_flag(out, micro.opd, " opd")?;
    put_flag(out, micro.nxt, " nxt")?;
    put(out, "\n")
}

fn put_flag(out: &mut Vec<u8>, flag: bool, name: &str) -> Result<(), NoMemory>
    ensures { OnOk result (out.new.items ≡ out.old.items ++ flag_text flag name.now) }
{
    if flag { put(out, name) } else { Ok(()) }
}

#[tactic(auto, unfolding(crate::specs::Listing::body_text))]
fn put_body(out: &mut Vec<u8>, body: Body) -> Result<(), NoMemory>
    ensures { OnOk result (out.new.items ≡ out.old.items ++ body_text body) }
{
    match body {
        Body::Plain(code) => put(out, operation_name(code)),
        Body::Stm(place) => put_numbered(out, "stm ", u64::from(place), ""),
        Body::Ldm(place) => put_numbered(out, "ldm ", u64::from(place), ""),
        Body::Ldi(number) => put_numbered(out, "ldi ", u64::from(number), ""),
        Body::Bz(to) => put_branch(out, "bz ", to),
        Body::Bnz(to) => put_branch(out, "bnz ", to),
        Body::Jmp(to) => put_branch(out, "jmp ", to),
    }
}

fn put_branch(out: &mut Vec<u8>, name: &str, to: u16) -> Result<(), NoMemory>
    ensures { OnOk result (out.new.items ≡ out.old.items ++ (name.now ++ target_text to)) }
{
    put(out, name)?;
    put(out, row_name(to).unwrap_or(""))
}
