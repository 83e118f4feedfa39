//! The opcodes of bare images, but for the `return` at the end.
ghost use Rattle.std.specs.Prelude.{◌≡◌};
ghost use Rattle.image_file.specs.Shapes.{shape, shape_of};

/// What an instruction has and does.
#[derive(Clone, Copy)]
pub struct Shape {
    /// The bytes behind its opcode.
    pub bytes: u8,
    /// How many locals must be there.
    pub locals: u8,
    /// The words that it takes from the stack.
    pub pops: u8,
    /// The words that it then puts on the stack.
    pub pushes: u8,
}

/// The shape of an opcode that stands in bare images before their end.
pub fn shape_of_opcode(op: u8) -> Option<Shape>
    ensures { result ≡ shape_of op }
{
    match op {
        0 => some_shape(0, 0, 0, 0),
        2..=8 => some_shape(0, 0, 0, 1),
        16 => some_shape(1, 0, 0, 1),
        26..=29 => some_shape(0, op - 25, 0, 1),
        59..=62 => some_shape(0, op - 58, 1, 0),
        87 => some_shape(0, 0, 1, 0),
        89 => some_shape(0, 0, 1, 2),
        96 | 100 | 126 | 128 | 130 => some_shape(0, 0, 2, 1),
        255 => some_shape(0, 0, 1, 0),
        _ => None,
    }
}

fn some_shape(bytes: u8, locals: u8, pops: u8, pushes: u8) -> Option<Shape>
    ensures { result ≡ shape bytes locals pops pushes }
{
    Some(Shape {
        bytes,
        locals,
        pops,
        pushes,
    })
}
