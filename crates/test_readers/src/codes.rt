//! Codes, instruction by instruction.
ghost use Rattle.std.specs.Prelude.{ℕ, ◌<◌, ◌≤◌, length};
ghost use Rattle.base.specs.Sizes.{longest_file};

use opcodes::{DecodeFault, Instr, Kind, case, decode, kind, name, raises, starts, target};
use std::io;
use test_rows::{RowFault, numbers};

/// The most bytes of a code.
const MOST: usize = 33_554_432;

/// The word for where control goes.
fn kind_word(kind: Kind) -> &'static str {
    match kind {
        Kind::Plain => "plain",
        Kind::Branch => "branch",
        Kind::Jump => "jump",
        Kind::Switch => "switch",
        Kind::Return => "return",
        Kind::Throw => "throw",
        Kind::Invoke => "invoke",
    }
}

/// Shows an instruction, but for its targets.
fn show_instruction(rt: &HostRuntime, pc: u32, instr: &Instr) -> io::Result<()> {
    let (wide, op) = (if instr.wide { "wide " } else { "" }, instr.op);
    let (length, first, second) = (instr.length, instr.first, instr.second);
    let (word, raising) = (kind_word(kind(op)), if raises(op) { " raises" } else { "" });
    print!(rt;
        "{pc} {wide}{} {length} {first} {second} {word}{raising}",
        name(op)
    )
}

/// Shows the instruction at a place.
fn show(rt: &HostRuntime, code: &[u8], pc: u32) -> io::Result<()>
    requires inside { pc < length code.now }
    requires small { length code.now ≤ longest_file }
{
    let instr = match decode(code, pc) {
        Ok(instr) => instr,
        Err(DecodeFault::NoOpcode(byte)) => return println!(rt; "{pc} no opcode {byte}"),
        Err(DecodeFault::Short) => return println!(rt; "{pc} short"),
    };
    show_instruction(rt, pc, &instr)?;
    if let Some(place) = target(pc, &instr) {
        print!(rt; " -> {place}")?;
    }
    for index in 0..instr.count {
        let case = case(code, pc, &instr, index);
        print!(rt; " {}:{}", case.key, i64::from(pc) + i64::from(case.offset))?;
    }
    println!(rt;)
}

/// Shows the instructions of a code that begin at some places.
fn show_starts(rt: &HostRuntime, code: &[u8], starts: &[u32]) -> io::Result<()>
    requires small { length code.now ≤ longest_file }
{
    for pc in starts {
        if (*pc as usize) < code.len() {
            show(rt, code, *pc)?;
        }
    }
    Ok(())
}

/// Shows the instructions of a code.
pub fn show_code(rt: &HostRuntime, row: &str) -> Result<(), RowFault> {
    let words: Vec<&str> = row.split_whitespace().collect(rt.alloc())?;
    let code: Vec<u8> = numbers(rt.alloc(), &words)?;
    if code.len() > MOST {
        return Err(RowFault::Malformed);
    }
    let starts = starts(rt.alloc(), &code)?;
    Ok(show_starts(rt, &code, &starts)?)
}
