//! The assembler of the microcode, line by line.
//!
//! A line holds any number of labels `NAME:`, then at most one directive or microinstruction, then at most one comment
//! from `;` to its end. Its parts are separated by one or more spaces, which may also begin and end it.
//! A microinstruction is its name, its argument where it has one, then perhaps `opd`, then perhaps `nxt`. The argument
//! of `bz`, `bnz` and `jmp`, which carry no flag, is a label; that of `stm`, `ldm` and `ldi` a number from 0 to 31.
//! The directives are `.entry OP`, `.raise`, `.const K V`, `.turns N`, `.turns pairs` and `.turns entries`.
#![tactic(auto)]

ghost use Rattle.std.specs.Prelude.{◌≡◌, ◌≤◌, ◌<◌, ◌^◌, ℕ, List, IfOk, IfErr, length, map, nat_eq, unwrap_or};
ghost use Rattle.std.specs.Cmp.Lexicographic.{pointwise};
ghost use Rattle.std.specs.Map.{lookup};
ghost use Rattle.base.specs.Sizes.{longest_file};
ghost use Rattle.indexmap.specs.IndexMap.{get_by};
ghost use Rattle.microcode_asm.specs.Parts.{is};
ghost use Rattle.microcode_asm.specs.Programs.{labels_from, read_lines};
ghost use Rattle.microcode_asm.specs.Roms.{IsAssembled, IsRefused};
ghost use Rattle.microcode_asm.specs.SoFar.{IsRomOf, IsTooLongFor, kept};

mod assembly;
mod labels;
mod line;
mod listing;
mod part;
mod state;
mod statement;

use ascii_text::lines;
use base::{Items, NoMemory};
use labels::{Labels, read_labels};
pub use listing::listing_of;
use microcode::isa::Turns;
use state::Assembly;
use std::alloc::Global;
use thiserror::Error;

/// The rule that a line breaks. On one line they are tried in the order `Form`, `LabelTwice`, `EntryTwice`,
/// `ConstTwice`, `NoLabel`, `NoTurns`.
#[derive(Clone, Copy, Debug, PartialEq, Eq)]
pub enum AsmKind {
    /// The line is not of the grammar.
    Form,
    /// The label that a branch names stands nowhere in the text.
    NoLabel,
    /// A label stands for the second time.
    LabelTwice,
    /// The entry of an opcode, or `.raise`, stands for the second time.
    EntryTwice,
    /// A constant is set for the second time.
    ConstTwice,
    /// A branch goes to its own or an earlier address, and no `.turns` counts for it.
    NoTurns,
}

/// Why a text is not assembled.
#[derive(Debug, Drop, Error)]
pub enum AsmFault {
    /// The line of this number, counted from 1, is the first that breaks a rule.
    #[error("line {0}: {1:?}")]
    Line(u32, AsmKind),
    /// No line breaks a rule, and the words, so many, are more than 2,048.
    #[error("{0} words")]
    TooLong(u32),
    /// There is no memory.
    #[error("no memory")]
    NoMemory,
}

impl From<NoMemory> for AsmFault {
    ghost use Rattle.std.specs.Prelude.{◌≡◌};
    ghost use Rattle.microcode_asm.specs.declared.AsmFault.TheVariants.{NoMemory as Lacks};

    ghost from_gives = { λ _ fault. fault ≡ Lacks };

    fn from(_: NoMemory) -> Self {
        AsmFault::NoMemory
    }
}

/// A microprogram. Contracts see its lists as lists.
#[derive(Drop)]
pub struct Rom {
    /// The words, from address 0 on.
    pub words: Items<u16>,
    /// The address of the row of each opcode, 256 of them.
    pub entries: Items<u16>,
    /// The address where raising begins.
    pub raise: u16,
    /// The 32 constants.
    pub consts: Items<u32>,
    /// The addresses, rising, of the branches to their own or an earlier address, with their turns.
    pub turns: Items<(u16, Turns)>,
}

/// The microprogram that a text is.
pub fn assemble(alloc: Global, text: &[u8]) -> Result<Rom, AsmFault>
    requires { length text.now ≤ longest_file }
    ensures assembled { IfOk result (IsAssembled text.now) }
    ensures refused { IfErr result (IsRefused text.now) }
{
    let labels = read_labels(alloc, text)?;
    assemble_with(alloc, text, &labels)
}

/// The microprogram that a text is, whose labels are these.
fn assemble_with(alloc: Global, text: &[u8], labels: &Labels) -> Result<Rom, AsmFault>
    requires few { length text.now ≤ longest_file }
    requires labels { (name : List ℕ) → get_by (λ k. pointwise nat_eq name k.items) labels.now ≡ lookup (is name) (labels_from 0 (read_lines text.now)) }
    ensures assembled { IfOk result (IsAssembled text.now) }
    ensures refused { IfErr result (IsRefused text.now) }
{
    let mut assembly = Assembly::new(alloc)?;
    let mut number = 0u32;
    for line in lines(text) {
        number += 1;
        if let Some(kind) = assembly.take_text(alloc, labels, line)? {
            return Err(AsmFault::Line(number, kind));
        }
    }
    finish(alloc, assembly)
}

/// The microprogram that was assembled, where it has at most 2,048 words.
fn finish(alloc: Global, assembly: Assembly) -> Result<Rom, AsmFault>
    requires { length assembly.words.items < 2 ^ 32 }
    ensures rom { IfOk result (IsRomOf (kept assembly)) }
    ensures refused { IfErr result (IsTooLongFor (kept assembly)) }
{
    if assembly.words.len() > 2048 {
        return Err(AsmFault::TooLong(assembly.words.len() as u32));
    }
    let entries = filled(alloc, assembly.entries.as_slice())?;
    let consts = values(alloc, assembly.consts.as_slice())?;
    Ok(Rom {
        words: Items::new(assembly.words),
        entries: Items::new(entries),
        raise: assembly.raise.unwrap_or(0),
        consts: Items::new(consts),
        turns: Items::new(assembly.turns),
    })
}

fn filled(alloc: Global, entries: &[Option<u16>]) -> Result<Vec<u16>, NoMemory>
    ensures { IfOk result (λ r. r.items ≡ map (λ e. unwrap_or e 0) entries.now) }
{
    Ok(
        entries
            .iter()
            .map(|entry| entry.unwrap_or(0))
            .collect(alloc)?,
    )
}

fn values(alloc: Global, consts: &[Option<u32>]) -> Result<Vec<u32>, NoMemory>
    ensures { IfOk result (λ r. r.items ≡ map (λ v. unwrap_or v 0) consts.now) }
{
    Ok(
        consts
            .iter()
            .map(|value| value.unwrap_or(0))
            .collect(alloc)?,
    )
}
