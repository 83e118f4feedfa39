//! Reading an instruction (JVM Specification SE 8, 6.5).

ghost use Rattle.std.specs.Prelude.{◌≡◌, ◌↔◌, ℕ, ◌+◌, ◌<◌, ◌≤◌, List, ◌++◌, length, Ok, Err, IfOk, OnOk, option_map};
ghost use Rattle.std.specs.Result.{result_ok};
ghost use Rattle.base.specs.Sizes.{longest_file};
ghost use Rattle.opcodes.specs.Bytes.{s4};
ghost use Rattle.opcodes.specs.Entry.{entry_operand, entry_operands};
ghost use Rattle.opcodes.specs.Instruction.{decoded, width, value_at, prefix_width, fixed_at, default_place, table_switch_at, lookup_switch_at, spelled_at};
ghost use Rattle.opcodes.specs.Instruction.{within};
ghost use Rattle.opcodes.specs.Fault.{IsNoOpcodeAt, PassesEnd};
ghost use Rattle.opcodes.specs.Form.{Wide};
ghost use Rattle.opcodes.specs.Target.{EndsWithin};

use crate::instruction::{DecodeFault, Instr};
use crate::table::{FixedOperand, Form, Operands, fixed_length, form_of};

/// The instruction that begins at a place of a code.
pub fn decode(code: &[u8], pc: u32) -> Result<Instr, DecodeFault>
    requires inside { pc < length code.now }
    requires small { length code.now ≤ longest_file }
    ensures exact { result ≡ decoded code.now pc }
    ensures no_opcode { (byte : ℕ) → (result ≡ Err (DecodeFault.NoOpcode byte)) ↔ IsNoOpcodeAt code.now pc byte }
    ensures short { (result ≡ Err DecodeFault.Short) ↔ PassesEnd code.now pc }
    ensures within { IfOk result (EndsWithin code.now pc) }
    ensures no_further { (more : List ℕ) → OnOk result (decoded (code.now ++ more) pc ≡ result) }
{
    instruction_at(code, pc)
}

/// The instruction at a place, by the form of its opcode.
fn instruction_at(code: &[u8], pc: u32) -> Result<Instr, DecodeFault>
    requires inside { pc < length code.now }
    requires small { length code.now ≤ longest_file }
    ensures { result ≡ decoded code.now pc }
{
    let opcode = code[pc as usize];
    match form_of(opcode) {
        Form::NotAnOpcode => Err(DecodeFault::NoOpcode(opcode)),
        Form::Fixed(operands) | Form::Widened(operands, _) => fixed(code, pc, false, operands),
        Form::TableSwitch => table_switch(code, pc),
        Form::LookupSwitch => lookup_switch(code, pc),
        Form::Wide => widened(code, pc),
    }
}

/// The number of bytes of the instruction that begins at a place of a code, if one does.
pub fn length(code: &[u8], pc: u32) -> Option<u32>
    requires inside { pc < length code.now }
    requires small { length code.now ≤ longest_file }
    ensures { result ≡ option_map (λ instr. instr.length) (result_ok (decoded code.now pc)) }
{
    let fixed = fixed_length(code[pc as usize]);
    if fixed == 0 {
        varying_length(code, pc)
    } else if pc as usize + fixed as usize <= code.len() {
        Some(fixed)
    } else {
        None
    }
}

/// The same, where the opcode doesn't tell.
fn varying_length(code: &[u8], pc: u32) -> Option<u32>
    requires inside { pc < length code.now }
    requires small { length code.now ≤ longest_file }
    ensures { result ≡ option_map (λ instr. instr.length) (result_ok (decoded code.now pc)) }
{
    decode(code, pc).ok().map(|instr| instr.length)
}

/// The instruction whose opcode stands behind `wide`.
fn widened(code: &[u8], pc: u32) -> Result<Instr, DecodeFault>
    requires inside { pc < length code.now }
    requires small { length code.now ≤ longest_file }
    ensures { result ≡ within code.now pc (spelled_at code.now pc Wide) }
{
    let place = pc as usize + 1;
    if place >= code.len() {
        return Err(DecodeFault::Short);
    }
    let opcode = code[place];
    match form_of(opcode) {
        Form::Widened(_, operands) => fixed(code, pc, true, operands),
        _ => Err(DecodeFault::NoOpcode(opcode)),
    }
}

/// An instruction with operands of fixed width, whose opcode stands at `pc` or, where it is wide, behind it.
#[inline(always)]
fn fixed(code: &[u8], pc: u32, wide: bool, operands: Operands) -> Result<Instr, DecodeFault>
    requires inside { pc + prefix_width wide < length code.now }
    requires small { length code.now ≤ longest_file }
    ensures { result ≡ within code.now pc (Ok (fixed_at code.now pc wide (entry_operands operands))) }
{
    let start = pc as usize;
    let place = start + usize::from(wide);
    let second_at = place + 1 + width_of(operands.first);
    let end = second_at + width_of(operands.second) + usize::from(operands.unused);
    if end > code.len() {
        return Err(DecodeFault::Short);
    }
    Ok(Instr {
        op: code[place],
        wide,
        length: (end - start) as u32,
        first: number(code, place + 1, operands.first),
        second: number(code, second_at, operands.second),
        count: 0,
        table: 0,
    })
}

/// How many bytes an operand takes.
#[inline(always)]
fn width_of(operand: FixedOperand) -> usize
    ensures value { result ≡ width (entry_operand operand) }
    ensures short { result ≤ 4 }
{
    match operand {
        FixedOperand::Absent => 0,
        FixedOperand::UnsignedByte | FixedOperand::SignedByte => 1,
        FixedOperand::UnsignedShort | FixedOperand::SignedShort | FixedOperand::Offset => 2,
        FixedOperand::WideOffset => 4,
    }
}

/// The number of an operand at a place of a code.
#[inline(always)]
fn number(code: &[u8], place: usize, operand: FixedOperand) -> i32
    requires { place + width (entry_operand operand) ≤ length code.now }
    ensures { result ≡ value_at code.now place (entry_operand operand) }
{
    match operand {
        FixedOperand::Absent => 0,
        FixedOperand::UnsignedByte => i32::from(code[place]),
        FixedOperand::SignedByte => i32::from(i8::from_be_bytes([code[place]])),
        FixedOperand::UnsignedShort => i32::from(u16::from_be_bytes([
            code[place],
            code[place + 1],
        ])),
        FixedOperand::SignedShort | FixedOperand::Offset => i32::from(i16::from_be_bytes([
            code[place],
            code[place + 1],
        ])),
        FixedOperand::WideOffset => signed_word(code, place),
    }
}

/// The four bytes at a place as a signed number, high byte first.
pub(crate) fn signed_word(code: &[u8], place: usize) -> i32
    requires { place + 4 ≤ length code.now }
    ensures { result ≡ s4 code.now place }
{
    i32::from_be_bytes([
        code[place],
        code[place + 1],
        code[place + 2],
        code[place + 3],
    ])
}

/// The place of a switch's default offset: the first multiple of four behind the opcode.
fn default_at(pc: u32) -> usize
    requires { pc ≤ longest_file }
    ensures value { result ≡ default_place pc }
    ensures behind { pc < result }
    ensures near { result ≤ pc + 4 }
{
    (pc as usize + 4) / 4 * 4
}

/// A `tableswitch`.
fn table_switch(code: &[u8], pc: u32) -> Result<Instr, DecodeFault>
    requires inside { pc < length code.now }
    requires small { length code.now ≤ longest_file }
    ensures { result ≡ within code.now pc (Ok (table_switch_at code.now pc)) }
{
    let place = default_at(pc);
    let table = place + 12;
    if table > code.len() {
        return Err(DecodeFault::Short);
    }
    let low = signed_word(code, place + 4);
    let high = signed_word(code, place + 8);
    let count = if high < low {
        0
    } else {
        u64::from(high.abs_diff(low)) + 1
    };
    let end = table as u64 + 4 * count;
    if end > code.len() as u64 {
        return Err(DecodeFault::Short);
    }
    Ok(Instr {
        op: code[pc as usize],
        wide: false,
        length: (end - u64::from(pc)) as u32,
        first: signed_word(code, place),
        second: low,
        count: count as u32,
        table: table as u32,
    })
}

/// A `lookupswitch`.
fn lookup_switch(code: &[u8], pc: u32) -> Result<Instr, DecodeFault>
    requires inside { pc < length code.now }
    requires small { length code.now ≤ longest_file }
    ensures { result ≡ within code.now pc (Ok (lookup_switch_at code.now pc)) }
{
    let place = default_at(pc);
    let table = place + 8;
    if table > code.len() {
        return Err(DecodeFault::Short);
    }
    let pairs = signed_word(code, place + 4);
    let count = u32::try_from(pairs).unwrap_or(0);
    let end = table as u64 + 8 * u64::from(count);
    if end > code.len() as u64 {
        return Err(DecodeFault::Short);
    }
    Ok(Instr {
        op: code[pc as usize],
        wide: false,
        length: (end - u64::from(pc)) as u32,
        first: signed_word(code, place),
        second: pairs,
        count,
        table: table as u32,
    })
}
