//! Microinstructions of the core, and the 16-bit words that spell them.
//!
//! Bit 15 of a word is the flag `nxt`, bit 14 the flag `opd`; the other 14 bits spell the body.
//! Every microinstruction has one spelling.

ghost use Rattle.std.specs.Prelude.{◌≡◌, ◌<◌, ◌^◌, Some, IfSome};
ghost use Rattle.microcode.specs.declared.isa.Micro.{Micro};
ghost use Rattle.microcode.specs.Isa.Words.{IsMicro, word_of, micro_of, body_of, Spells};

mod operation;

pub use operation::Operation;

/// What a microinstruction does, apart from its flags.
#[derive(Clone, Copy)]
pub enum Body {
    /// An operation by its code, below 48.
    Plain(u8),
    /// Pops into the on-chip word of this place, below 32.
    Stm(u8),
    /// Pushes the on-chip word of this place, below 32.
    Ldm(u8),
    /// Pushes the constant of this number, below 32.
    Ldi(u8),
    /// Pops, and branches to the address, below 2,048, where the word was zero.
    Bz(u16),
    /// Pops, and branches to the address, below 2,048, where the word was not zero.
    Bnz(u16),
    /// Branches to the address, below 2,048.
    Jmp(u16),
}

/// A microinstruction. A branch carries neither flag.
#[derive(Clone, Copy)]
pub struct Micro {
    /// What it does first.
    pub body: Body,
    /// Then the next byte of the method is shifted into the operand register.
    pub opd: bool,
    /// Then the next byte of the method is the opcode to run.
    pub nxt: bool,
}

/// How often a branch to its own or an earlier address is taken within one bytecode, at most.
#[derive(Clone, Copy, Debug, PartialEq, Eq)]
pub enum Turns {
    /// So many times.
    Count(u32),
    /// Once per pair of a `lookupswitch`.
    PerPair,
    /// Once per entry of the exception table.
    PerEntry,
}

const OPD: u16 = 0x4000;

const NXT: u16 = 0x8000;

/// The word of a microinstruction whose code, place, number or address is in its range and whose
/// branch carries no flag.
pub fn encode(m: Micro) -> u16
    requires { IsMicro m }
    ensures word { result ≡ word_of m }
    ensures decodes { micro_of result ≡ Some m }
{
    let body = match m.body {
        Body::Plain(code) => code as u16,
        Body::Stm(place) => 0x0100 + place as u16,
        Body::Ldm(place) => 0x0120 + place as u16,
        Body::Ldi(number) => 0x0140 + number as u16,
        Body::Bz(to) => 0x0800 + to,
        Body::Bnz(to) => 0x1000 + to,
        Body::Jmp(to) => 0x1800 + to,
    };
    let opd = if m.opd { OPD } else { 0 };
    let nxt = if m.nxt { NXT } else { 0 };
    nxt + opd + body
}

/// The microinstruction that the word spells; `None` exactly where it spells none.
pub fn decode(word: u16) -> Option<Micro>
    ensures micro { result ≡ micro_of word }
    ensures spelled { IfSome result (Spells word) }
    ensures all { (m : Micro) → Spells word m → result ≡ Some m }
{
    let nxt = word / NXT == 1;
    let opd = word / OPD % 2 == 1;
    let body = decode_body(word % OPD, opd || nxt)?;
    Some(Micro { body, opd, nxt })
}

/// The body that the low 14 bits of a word spell, where the word has a flag or none.
fn decode_body(bits: u16, flagged: bool) -> Option<Body>
    requires { bits < 2 ^ 14 }
    ensures { result ≡ body_of bits flagged }
{
    match bits {
        0..0x0030 => Some(Body::Plain(bits as u8)),
        0x0100..0x0120 => Some(Body::Stm((bits - 0x0100) as u8)),
        0x0120..0x0140 => Some(Body::Ldm((bits - 0x0120) as u8)),
        0x0140..0x0160 => Some(Body::Ldi((bits - 0x0140) as u8)),
        _ if flagged => None,
        0x0800..0x1000 => Some(Body::Bz(bits - 0x0800)),
        0x1000..0x1800 => Some(Body::Bnz(bits - 0x1000)),
        0x1800..0x2000 => Some(Body::Jmp(bits - 0x1800)),
        _ => None,
    }
}
