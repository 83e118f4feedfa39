//! Microinstructions and their words, and the microcode: one list of rows.
//!
//! The microcode of the core: the words of its ROM, where the rows of the bytecodes begin, and the
//! constants. The words are written in `rows`; the addresses follow from them.
#![tactic(auto)]

ghost use Rattle.std.specs.Prelude.{◌≡◌, ◌<◌, slice_index};
ghost use Rattle.microcode.specs.Tables.{AreMicros, RowsFollow, BranchesHaveTurns, turns_in};

pub mod addresses;
pub mod isa;
pub mod names;
mod rows;

use crate::isa::{Operation, Turns};
use addresses::*;
use names::*;

/// The values of the constants, by number.
#[rattlefmt::skip]
pub static CONSTANTS: [u32; 32] = [
    0, 1, 2, 3, 4, 5, 6, 7, 8, 0xffff_ffff, 0xffff, 11, 0x00ff_ffff, 0x20, 54, 55,
    16, 132, 0, 0, 0, 0, 22, 0, 24, 0, 0, 0, 0, 0, 0, 31,
];

macro_rules! flag {
    (opd) => {
        0x4000
    };
    (nxt) => {
        0x8000
    };
}

macro_rules! word {
    (Stm $place:tt $($flag:ident)*) => {
        0x0100 + $place $(+ flag!($flag))*
    };
    (Ldm $place:tt $($flag:ident)*) => {
        0x0120 + $place $(+ flag!($flag))*
    };
    (Ldi $number:tt $($flag:ident)*) => {
        0x0140 + $number $(+ flag!($flag))*
    };
    (Bz $to:ident) => {
        0x0800 + $to
    };
    (Bnz $to:ident) => {
        0x1000 + $to
    };
    (Jmp $to:ident) => {
        0x1800 + $to
    };
    ($operation:ident $($flag:ident)*) => {
        Operation::$operation as u16 $(+ flag!($flag))*
    };
}

macro_rules! words {
    ($($row:ident = $([$($part:tt)*])*;)*) => {
        [$($(word!($($part)*)),*),*]
    };
}

macro_rules! one {
    ($($part:tt)*) => {
        1
    };
}

/// The address and the number of words of each row.
macro_rules! bounds {
    ($($row:ident = $([$($part:tt)*])*;)*) => {
        [$(($row, 0 $(+ one!($($part)*))*)),*]
    };
}

/// The words, from address 0 on. All further words of the ROM are 0.
pub static WORDS: [u16; 1739] = microcode!(words);

/// The address and the number of words of each row.
pub static ROWS: [(u16, u16); 148] = microcode!(bounds);

/// The branches to their own or an earlier address, with their turns: each is the last word of its row.
pub static TURNS: [(u16, Turns); 4] = [
    (DIVIDE_SIGNS - 1, Turns::Count(31)),
    (LOOKUP_HIT - 1, Turns::PerPair),
    (HANDLER_FOUND - 1, Turns::PerEntry),
    (END - 1, Turns::Count(1)),
];

/// Where the raise routine begins.
pub const RAISE: u16 = addresses::RAISE;

/// Where the row of each opcode begins, eight opcodes a line.
#[rattlefmt::skip]
pub static ENTRIES: [u16; 256] = [
    NOP, ICONST_0, ICONST_M1, ICONST_0, ICONST_1, ICONST_2, ICONST_3, ICONST_4,
    ICONST_5, LCONST_0, LCONST_1, NOP, NOP, NOP, NOP, NOP,
    BIPUSH, SIPUSH, LDC, LDC_W, LDC2_W, ILOAD, LLOAD, NOP,
    NOP, ILOAD, ILOAD_0, ILOAD_1, ILOAD_2, ILOAD_3, LLOAD_0, LLOAD_1,
    LLOAD_2, LLOAD_3, NOP, NOP, NOP, NOP, NOP, NOP,
    NOP, NOP, ILOAD_0, ILOAD_1, ILOAD_2, ILOAD_3, IALOAD, LALOAD,
    NOP, NOP, IALOAD, IALOAD, IALOAD, IALOAD, ISTORE, LSTORE,
    NOP, NOP, ISTORE, ISTORE_0, ISTORE_1, ISTORE_2, ISTORE_3, LSTORE_0,
    LSTORE_1, LSTORE_2, LSTORE_3, NOP, NOP, NOP, NOP, NOP,
    NOP, NOP, NOP, ISTORE_0, ISTORE_1, ISTORE_2, ISTORE_3, IASTORE,
    LASTORE, NOP, NOP, AASTORE, BASTORE, CASTORE, SASTORE, POP,
    POP2, DUP, DUP_X1, DUP_X2, DUP2, DUP2_X1, DUP2_X2, SWAP,
    IADD, LADD, NOP, NOP, ISUB, LSUB, NOP, NOP,
    IMUL, NOP, NOP, NOP, IDIV, NOP, NOP, NOP,
    IREM, NOP, NOP, NOP, INEG, LNEG, NOP, NOP,
    ISHL, LSHL, ISHR, LSHR, IUSHR, LUSHR, IAND, LAND,
    IOR, LOR, IXOR, LXOR, IINC, I2L, NOP, NOP,
    L2I, NOP, NOP, NOP, NOP, NOP, NOP, NOP,
    NOP, I2B, I2C, I2S, LCMP, NOP, NOP, NOP,
    NOP, IFEQ, IFEQ, IFEQ, IFEQ, IFEQ, IFEQ, IF_ICMPEQ,
    IF_ICMPEQ, IF_ICMPEQ, IF_ICMPEQ, IF_ICMPEQ, IF_ICMPEQ, IF_ICMPEQ, IF_ICMPEQ, GOTO,
    NOP, NOP, TABLESWITCH, LOOKUPSWITCH, IRETURN, LRETURN, NOP, NOP,
    IRETURN, RETURN, GETSTATIC, PUTSTATIC, GETFIELD, PUTFIELD, INVOKEVIRTUAL, INVOKESPECIAL,
    INVOKESTATIC, INVOKEINTERFACE, NOP, NEW, NEWARRAY, ANEWARRAY, ARRAYLENGTH, ATHROW,
    CHECKCAST, INSTANCEOF, MONITORENTER, MONITORENTER, WIDE, NOP, IFEQ, IFEQ,
    GOTO_W, NOP, NOP, NOP, NOP, NOP, NOP, NOP,
    NOP, NOP, NOP, NOP, NOP, NOP, NOP, NOP,
    NOP, NOP, NOP, NOP, NOP, NOP, NOP, NOP,
    NOP, NOP, NOP, NOP, NOP, NOP, NOP, NOP,
    NOP, NOP, NOP, NOP, NOP, NOP, NOP, NOP,
    NOP, NOP, NOP, NOP, NOP, NOP, NOP, NOP,
    NOP, NOP, NOP, NOP, NOP, NOP, IMPDEP1, IMPDEP2,
];

/// The word at an address below 2,048.
pub fn rom(address: u16) -> u16
    requires { address < 2048 }
    ensures { result ≡ slice_index WORDS address }
{
    word_among(&WORDS, address)
}

fn word_among(words: &[u16], address: u16) -> u16
    ensures { result ≡ slice_index words.now address }
{
    words.get(address as usize).copied().unwrap_or(0)
}

/// Where the row of an opcode begins.
pub fn entry(op: u8) -> u16
    ensures entry { result ≡ slice_index ENTRIES op }
    ensures address { result < 2048 }
{
    entry_at(op)
}

fn entry_at(op: u8) -> u16
    ensures { result ≡ slice_index ENTRIES op }
{
    ENTRIES[op as usize]
}

/// Where the raise routine begins.
pub fn raise_entry() -> u16
    ensures entry { result ≡ RAISE }
    ensures address { result < 2048 }
{
    RAISE
}

/// How often the branch at an address is taken within one bytecode, at most, if it goes to its own or an
/// earlier address.
pub fn turns(address: u16) -> Option<Turns>
    ensures { result ≡ turns_in address TURNS }
{
    turns_among(&TURNS, address)
}

fn turns_among(branches: &[(u16, Turns)], address: u16) -> Option<Turns>
    ensures { result ≡ turns_in address branches.now }
{
    branches
        .iter()
        .find(|branch| branch.0 == address)
        .map(|branch| branch.1)
}

/// The constant of a number below 32.
pub fn constant(k: u8) -> u32
    requires { k < 32 }
    ensures { result ≡ slice_index CONSTANTS k }
{
    CONSTANTS[k as usize]
}

/// What holds of the list: each word is a microinstruction's, each row begins where the one before it
/// ends, and each branch to its own or an earlier address has turns.
pub fn is_laid_out()
    ensures words { AreMicros WORDS }
    ensures rows { RowsFollow 0 ROWS }
    ensures turns { BranchesHaveTurns WORDS TURNS }
{}
