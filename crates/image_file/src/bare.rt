//! Bare images: one method of ints, without classes. Their grammar stands in `specs/Bare.antt`.

ghost use Rattle.std.specs.Prelude.{◌≡◌, ◌+◌, ◌*◌, true, false, IfOk, IsOk};
ghost use Rattle.std.specs.declared.option.Option.{Option};
ghost use Rattle.image_file.specs.Bare.{BareContent, IsBareContent, IsBareFile};
ghost use Rattle.image_file.specs.Scan.{shape_fits, scan, image_test, image_in};

mod shape;

pub use base::FormatFault as BareFault;
use shape::{Shape, shape_of_opcode};
use std::alloc::Global;
use std::marker::Model;

/// The opcode of `return`, which ends the code.
const RETURN: u8 = 177;

/// The most bytes of code.
const LONGEST_CODE: u32 = 4096;

/// The most words of boot's frame.
const LONGEST_FRAME: u32 = 176;

/// An image of the bare grammar.
#[derive(Drop)]
pub struct Bare {
    max_locals: u16,
    max_stack: u16,
    code: Vec<u8>,
}

impl Model for Bare {
    ghost use Rattle.image_file.specs.Bare.{BareContent};
    ghost use Rattle.image_file.specs.Meaning.{image_of, IsKept};

    ghost Value = { BareContent };

    ghost view = { image_of };

    ghost invariant = { IsKept };
}

impl Bare {
    /// The words of boot's locals.
    pub fn max_locals(&self) -> u16
        ensures locals { result ≡ self.now.max_locals }
        ensures image { IsBareContent self.now }
    {
        self.max_locals
    }

    /// The most words of boot's operands.
    pub fn max_stack(&self) -> u16
        ensures stack { result ≡ self.now.max_stack }
        ensures image { IsBareContent self.now }
    {
        self.max_stack
    }

    /// The code.
    pub fn code(&self) -> &[u8]
        ensures code { result.now ≡ self.now.code }
        ensures image { IsBareContent self.now }
    {
        &self.code
    }
}

/// The image that the bytes are, if they are of the bare grammar.
pub fn read_bare(alloc: Global, bytes: &[u8]) -> Result<Bare, BareFault>
    ensures image { IfOk result (IsBareFile bytes.now) }
    ensures bad { result ≡ Err BareFault.Bad → (image : BareContent) → ¬ IsBareFile bytes.now image }
{
    read(alloc, bytes)
}

fn read(alloc: Global, bytes: &[u8]) -> Result<Bare, BareFault>
    ensures image { IfOk result (λ bare. image_in bytes.now ≡ Some bare) }
    ensures bad { result ≡ Err BareFault.Bad → image_in bytes.now ≡ None }
{
    let [
        b'J',
        b'O',
        b'P',
        b'B',
        0,
        1,
        l0,
        l1,
        s0,
        s1,
        n0,
        n1,
        n2,
        n3,
        code @ ..,
    ] = bytes
    else {
        return Err(BareFault::Bad);
    };
    let length = half(*n0, *n1) as u32 * 65536 + half(*n2, *n3) as u32;
    image(alloc, half(*l0, *l1), half(*s0, *s1), length, code)
}

/// The image of these parts, if they are those of one.
fn image(
    alloc: Global,
    max_locals: u16,
    max_stack: u16,
    length: u32,
    code: &[u8],
) -> Result<Bare, BareFault>
    ensures tested { IsOk result → image_test max_locals max_stack length code.now ≡ true }
    ensures parts { IfOk result (λ bare. bare ≡ record { max_locals = max_locals; max_stack = max_stack; code = code.now }) }
    ensures bad { result ≡ Err BareFault.Bad → image_test max_locals max_stack length code.now ≡ false }
{
    if !is_image(max_locals, max_stack, length, code) {
        return Err(BareFault::Bad);
    }
    let code = code.to_vec(alloc)?;
    Ok(Bare {
        max_locals,
        max_stack,
        code,
    })
}

fn half(high: u8, low: u8) -> u16
    ensures { result ≡ high * 256 + low }
{
    high as u16 * 256 + low as u16
}

/// Whether the parts are those of an image, of whose code this is the length.
fn is_image(max_locals: u16, max_stack: u16, length: u32, code: &[u8]) -> bool
    ensures { result ≡ image_test max_locals max_stack length code.now }
{
    length as usize == code.len()
        && length <= LONGEST_CODE
        && max_locals as u32 + 5 + max_stack as u32 <= LONGEST_FRAME
        && is_code(max_locals, max_stack, code)
}

/// Whether the code is whole instructions of bare images that keep within the limits, and a `return` at its end.
fn is_code(max_locals: u16, max_stack: u16, code: &[u8]) -> bool
    ensures { result ≡ scan max_locals max_stack 0 0 code.now }
{
    let mut depth = 0u16;
    // The bytes of the instruction that are still to come.
    let mut behind = 0u8;
    let mut rest = code;
    while let [byte, after @ ..] = rest {
        if behind > 0 {
            behind -= 1;
        } else if *byte == RETURN {
            return after.is_empty();
        } else {
            let Some(shape) = shape_of_opcode(*byte) else {
                return false;
            };
            if !fits(shape, max_locals, max_stack, depth) {
                return false;
            }
            depth = depth - shape.pops as u16 + shape.pushes as u16;
            behind = shape.bytes;
        }
        rest = after;
    }
    false
}

/// Whether an instruction of this shape may stand where so many operands are on the stack.
fn fits(shape: Shape, max_locals: u16, max_stack: u16, depth: u16) -> bool
    ensures { result ≡ shape_fits max_locals max_stack depth (Some shape) }
{
    let pops = shape.pops as u16;
    shape.locals as u16 <= max_locals
        && pops <= depth
        && (depth - pops) as u32 + shape.pushes as u32 <= max_stack as u32
}
