//! The lines.
ghost use Rattle.std.specs.Prelude.{◌≡◌};
ghost use Rattle.outside.specs.Outside.{HasCause};
ghost use Rattle.run_devices.specs.Lines.{boundary_line, cycle_line, registers_line, step_line, step_name, write_line};
ghost use Rattle.run_devices.specs.Put.{PutLine};

use crate::pieces::put_pieces;
use ascii_text::{hex_digits, short_hex};
use device_traits::Seen;
use itoa::Buffer;
use outside::{Failed, Sink};

/// A boundary of a run, and the state for which the machine stands there.
#[derive(Clone, Copy)]
pub struct AtBoundary<'a> {
    /// The cycles done so far.
    pub clock: u64,
    /// The name of the method whose frame is on top.
    pub method: &'a [u8],
    /// The place of its instruction.
    pub pc: u32,
    /// The opcode of the instruction, and none while an object is raised.
    pub opcode: Option<u8>,
    /// How many frames there are.
    pub frames: u32,
    /// How many words the operands of the top frame take.
    pub operands: u32,
}

/// What a trace calls the step from a boundary.
fn step_name(opcode: Option<u8>) -> &'static [u8]
    ensures { result.now ≡ step_name opcode }
{
    match opcode {
        Some(opcode) => opcodes::name(opcode).as_bytes(),
        None => b"raise",
    }
}

/// Puts the line of a boundary.
pub fn put_boundary<O: Sink>(sink: &mut O, at: AtBoundary<'_>) -> Result<(), Failed>
    ensures put { PutLine (O.held sink.old) (O.held sink.new) (boundary_line at.entry) result }
    ensures cause { HasCause (O.faults sink.old) (O.faults sink.new) result }
{
    put_step(
        sink,
        at.clock,
        at.method,
        at.pc,
        step_name(at.opcode),
        at.frames,
        at.operands,
    )
}

/// Puts it, part by part.
fn put_step<O: Sink>(
    sink: &mut O,
    clock: u64,
    method: &[u8],
    pc: u32,
    name: &[u8],
    frames: u32,
    operands: u32,
) -> Result<(), Failed>
    ensures put { PutLine (O.held sink.old) (O.held sink.new) (step_line clock method.now pc name.now frames operands) result }
    ensures cause { HasCause (O.faults sink.old) (O.faults sink.new) result }
{
    let mut clock_digits = Buffer::new();
    let mut pc_digits = Buffer::new();
    let mut frames_digits = Buffer::new();
    let mut operands_digits = Buffer::new();
    let clock = clock_digits.format(clock).as_bytes();
    let pc = pc_digits.format(pc).as_bytes();
    let frames = frames_digits.format(frames).as_bytes();
    let operands = operands_digits.format(operands).as_bytes();
    put_pieces(
        sink,
        &[
            clock,
            b" ",
            method,
            b" ",
            pc,
            b" ",
            name,
            b" frames=",
            frames,
            b" operands=",
            operands,
            b"\n",
        ],
    )
}

/// Puts the line of a byte that the program writes.
pub fn put_write<O: Sink>(sink: &mut O, byte: u8) -> Result<(), Failed>
    ensures put { PutLine (O.held sink.old) (O.held sink.new) (write_line byte) result }
    ensures cause { HasCause (O.faults sink.old) (O.faults sink.new) result }
{
    let digits = hex_digits(byte as u32);
    put_pieces(sink, &[b"write ", &digits[6..], b"\n"])
}

/// Puts the line of a cycle, of the machine's registers before it.
pub fn put_cycle<O: Sink>(sink: &mut O, at: Seen) -> Result<(), Failed>
    ensures put { PutLine (O.held sink.old) (O.held sink.new) (cycle_line at) result }
    ensures cause { HasCause (O.faults sink.old) (O.faults sink.new) result }
{
    let mpc = hex_digits(at.mpc as u32);
    let a = hex_digits(at.a);
    let b = hex_digits(at.b);
    let sp = hex_digits(at.sp);
    let vp = hex_digits(at.vp);
    put_registers(
        sink,
        at.clock,
        short_hex(at.mpc as u32, &mpc),
        &a,
        &b,
        short_hex(at.sp, &sp),
        short_hex(at.vp, &vp),
    )
}

/// Puts it, part by part.
fn put_registers<'a, O: Sink>(
    sink: &mut O,
    clock: u64,
    mpc: &'a [u8],
    a: &'a [u8],
    b: &'a [u8],
    sp: &'a [u8],
    vp: &'a [u8],
) -> Result<(), Failed>
    ensures put { PutLine (O.held sink.old) (O.held sink.new) (registers_line clock mpc.now a.now b.now sp.now vp.now) result }
    ensures cause { HasCause (O.faults sink.old) (O.faults sink.new) result }
{
    let mut digits = Buffer::new();
    let clock = digits.format(clock).as_bytes();
    put_pieces(
        sink,
        &[
            clock, b" ", mpc, b" ", a, b" ", b, b" ", sp, b" ", vp, b"\n",
        ],
    )
}
