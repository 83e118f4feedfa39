//! The bound of a method in each shape that a method cache may have.
ghost use Rattle.std.specs.Prelude.{◌≡◌, ◌≤◌, ◌++◌, [], ◌∷◌, length, flat_map, map, All, IfOk, IfErr, OnOk};
ghost use Rattle.base.specs.Sizes.{longest_file};
ghost use Rattle.command_line.specs.Range.{AreSettings};
ghost use Rattle.analysis_commands.specs.Bounding.{IsNotBounded};
ghost use Rattle.ask_commands.specs.Shapes.{IsSettingsShape, shape_with, all_shapes, with_shape, word_of, shape_text, shape_line, of_fault, of_cause};
ghost use Rattle.ask_commands.specs.Shapes.{of_shape};
ghost use Rattle.ask_commands.specs.Shapes.{IsShapeBound, AreLinesOfShapes, AreShapeLines, IsShapeRefusal};

use analysis_commands::{NotBounded, bound_number};
use answer_lines::{AnalysisFault, BoundCause};
use ascii_text::put_u64;
use base::NoMemory;
use bytecode_verifier::Verified;
use command_line::Settings;
use std::alloc::Global;

/// A shape of the method cache.
#[derive(Clone, Copy)]
pub struct Shape {
    /// Its blocks.
    pub blocks: u32,
    /// The words of a block.
    pub block_words: u32,
}

/// What is found of a method in a shape.
#[derive(Clone, Copy)]
pub enum ShapeBound {
    /// Its bound in cycles, or `None` where it never ends.
    Number(Option<u64>),
    /// The code of some method doesn't fit.
    TooLong,
    /// A number is past 64 bits.
    TooLarge,
}

/// The settings with this shape.
fn with_shape(settings: &Settings, shape: Shape) -> Settings
    requires settings { AreSettings settings.now }
    requires shape { IsSettingsShape shape }
    ensures exact { result ≡ with_shape settings.now shape }
    ensures settings { AreSettings result }
{
    Settings {
        cycles: settings.cycles,
        stack: settings.stack,
        memory: settings.memory,
        blocks: shape.blocks,
        block_words: shape.block_words,
        read: settings.read,
        write: settings.write,
    }
}

/// What a fault says of the shape alone.
fn of_fault(fault: &AnalysisFault) -> Option<ShapeBound>
    ensures { result ≡ of_fault fault.now }
{
    match fault {
        AnalysisFault::MethodTooLong(_, _, _) => Some(ShapeBound::TooLong),
        AnalysisFault::BadBounds(_) | AnalysisFault::TwiceBound(_) | AnalysisFault::NoMemory =>
            None,
    }
}

/// What a cause says of the shape alone.
fn of_cause(cause: BoundCause) -> Option<ShapeBound>
    ensures { result ≡ of_cause cause }
{
    match cause {
        BoundCause::TooLarge(_) => Some(ShapeBound::TooLarge),
        BoundCause::NoMethod
        | BoundCause::Recursion
        | BoundCause::Irreducible(_)
        | BoundCause::MissingBound(_, _) => None,
    }
}

/// What a refusal says of the shape alone.
fn of_shape(refusal: &NotBounded) -> Option<ShapeBound>
    ensures { result ≡ of_shape refusal.now }
{
    match refusal {
        NotBounded::NoAnalysis(fault) => of_fault(fault),
        NotBounded::Forbidden(cause, _) => of_cause(*cause),
        NotBounded::NoMemory => None,
    }
}

/// What is found of a method with these settings.
fn bound_with(
    alloc: Global,
    program: &Verified,
    settings: &Settings,
    name: &[u8],
    bounds: &[u8],
) -> Result<ShapeBound, NotBounded>
    requires settings { AreSettings settings.now }
    requires short { length bounds.now ≤ longest_file }
    ensures bound { IfOk result (IsShapeBound program.now settings.now bounds.now name.now) }
    ensures refused { IfErr result (IsNotBounded program.now settings.now bounds.now name.now) }
    ensures other { IfErr result (λ refusal. of_shape refusal ≡ None) }
{
    match bound_number(alloc, program, settings, name, bounds) {
        Ok(bound) => Ok(ShapeBound::Number(bound)),
        Err(refusal) => match of_shape(&refusal) {
            Some(bound) => Ok(bound),
            None => Err(refusal),
        },
    }
}

/// Appends what is found in a shape, as its line has it.
fn put_word(text: &mut Vec<u8>, bound: ShapeBound) -> Result<(), NoMemory>
    ensures { OnOk result (text.new.items ≡ text.old.items ++ word_of bound) }
{
    match bound {
        ShapeBound::Number(Some(cycles)) => put_u64(text, cycles),
        ShapeBound::Number(None) => Ok(text.extend_from_slice(b"never")?),
        ShapeBound::TooLong => Ok(text.extend_from_slice(b"too-long")?),
        ShapeBound::TooLarge => Ok(text.extend_from_slice(b"too-large")?),
    }
}

/// Appends a shape: `blocks=M block-words=B`.
fn put_shape(text: &mut Vec<u8>, shape: Shape) -> Result<(), NoMemory>
    ensures { OnOk result (text.new.items ≡ text.old.items ++ shape_text shape) }
{
    text.extend_from_slice(b"blocks=")?;
    put_u64(text, shape.blocks as u64)?;
    text.extend_from_slice(b" block-words=")?;
    put_u64(text, shape.block_words as u64)
}

/// Appends the line of a shape: `blocks=M block-words=B bound=X`.
fn put_shape_line(text: &mut Vec<u8>, shape: Shape, bound: ShapeBound) -> Result<(), NoMemory>
    ensures { OnOk result (text.new.items ≡ text.old.items ++ shape_line shape bound) }
{
    put_shape(text, shape)?;
    text.extend_from_slice(b" bound=")?;
    put_word(text, bound)?;
    Ok(text.push(b'\n')?)
}

/// The line of a shape.
fn line_of(alloc: Global, shape: Shape, bound: ShapeBound) -> Result<Vec<u8>, NotBounded>
    ensures line { IfOk result (λ line. line.items ≡ shape_line shape bound) }
    ensures memory { IfErr result (λ refusal. refusal ≡ NotBounded.NoMemory) }
{
    let mut line = Vec::new(alloc);
    match put_shape_line(&mut line, shape, bound) {
        Ok(_) => Ok(line),
        Err(_) => Err(NotBounded::NoMemory),
    }
}

/// The line of a method in a shape.
fn line_in(
    alloc: Global,
    program: &Verified,
    settings: &Settings,
    name: &[u8],
    bounds: &[u8],
    shape: Shape,
) -> Result<Vec<u8>, NotBounded>
    requires settings { AreSettings settings.now }
    requires shape { IsSettingsShape shape }
    requires short { length bounds.now ≤ longest_file }
    ensures line { IfOk result (λ line. AreLinesOfShapes program.now settings.now bounds.now name.now (shape ∷ []) line.items) }
    ensures refused { IfErr result (IsShapeRefusal program.now settings.now bounds.now name.now) }
{
    let shaped = with_shape(settings, shape);
    match bound_with(alloc, program, &shaped, name, bounds) {
        Ok(bound) => line_of(alloc, shape, bound),
        Err(refusal) => Err(refusal),
    }
}

/// Appends a line.
fn append(text: &mut Vec<u8>, line: &[u8]) -> Result<(), NotBounded>
    ensures put { OnOk result (text.new.items ≡ text.old.items ++ line.now) }
    ensures memory { IfErr result (λ refusal. refusal ≡ NotBounded.NoMemory) }
{
    match text.extend_from_slice(line) {
        Ok(_) => Ok(()),
        Err(_) => Err(NotBounded::NoMemory),
    }
}

/// The lines of a method in these shapes.
fn lines_in(
    alloc: Global,
    program: &Verified,
    settings: &Settings,
    name: &[u8],
    bounds: &[u8],
    shapes: &[Shape],
) -> Result<Vec<u8>, NotBounded>
    requires settings { AreSettings settings.now }
    requires shapes { All IsSettingsShape shapes.now }
    requires short { length bounds.now ≤ longest_file }
    ensures lines { IfOk result (λ text. AreLinesOfShapes program.now settings.now bounds.now name.now shapes.now text.items) }
    ensures refused { IfErr result (IsShapeRefusal program.now settings.now bounds.now name.now) }
{
    let mut text = Vec::new(alloc);
    for shape in shapes {
        let line = line_in(alloc, program, settings, name, bounds, *shape)?;
        append(&mut text, &line)?;
    }
    Ok(text)
}

/// Appends the shapes of so many words a block that have these numbers of blocks.
fn push_shapes(shapes: &mut Vec<Shape>, block_words: u32, counts: &[u32]) -> Result<(), NoMemory>
    ensures { OnOk result (shapes.new.items ≡ shapes.old.items ++ map (shape_with block_words) counts.now) }
{
    for blocks in counts {
        shapes.push(Shape {
            blocks: *blocks,
            block_words,
        })?;
    }
    Ok(())
}

/// The shapes of these sizes of blocks, of each with these numbers of blocks.
fn shapes_of(alloc: Global, sizes: &[u32], counts: &[u32]) -> Result<Vec<Shape>, NoMemory>
    ensures { IfOk result (λ made. made.items ≡ flat_map (λ size. map (shape_with size) counts.now) sizes.now) }
{
    let mut made = Vec::new(alloc);
    for size in sizes {
        push_shapes(&mut made, *size, counts)?;
    }
    Ok(made)
}

/// The shapes whose numbers are powers of two.
fn all_shapes(alloc: Global) -> Result<Vec<Shape>, NoMemory>
    ensures { IfOk result (λ made. made.items ≡ all_shapes) }
{
    shapes_of(
        alloc,
        &[1, 2, 4, 8, 16, 32, 64, 128, 256, 512, 1024],
        &[1, 2, 4, 8, 16, 32, 64, 128, 256],
    )
}

/// The bound of the method that has this name in each shape of the method cache whose numbers are powers of two, whatever shape the
/// settings have: the lines `blocks=M block-words=B bound=X`, the words of a block rising from 1 to 1,024 and, with each, the blocks
/// from 1 to 256. X is the bound in cycles, `never` where the method never ends, `too-long` where a code doesn't fit, and `too-large`
/// where a number is past 64 bits.
///
/// # Errors
///
/// What doesn't depend on the shape: what refuses the bounds. Then what forbids a bound: no method has the name, recursion, a loop
/// with several entries, one without a bound.
pub fn bound_shapes(
    alloc: Global,
    program: &Verified,
    settings: &Settings,
    name: &[u8],
    bounds: &[u8],
) -> Result<Vec<u8>, NotBounded>
    requires settings { AreSettings settings.now }
    requires short { length bounds.now ≤ longest_file }
    ensures lines { IfOk result (λ text. AreShapeLines program.now settings.now bounds.now name.now text.items) }
    ensures refused { IfErr result (IsShapeRefusal program.now settings.now bounds.now name.now) }
{
    match all_shapes(alloc) {
        Ok(shapes) => lines_in(alloc, program, settings, name, bounds, &shapes),
        Err(_) => Err(NotBounded::NoMemory),
    }
}
