//! Nets, and the expressions that wires are made of.

use base::Items;

/// What drives a net. The numbers count inputs, registers, block RAMs and wires from 0.
#[derive(Clone, Copy)]
pub enum Driver {
    /// This word, always.
    Constant(u64),
    /// An input.
    Input(usize),
    /// A register.
    Register(usize),
    /// The output register of a block RAM.
    ReadOut(usize),
    /// A wire.
    Wire(usize),
}

/// A net.
#[derive(Clone, Copy)]
pub struct Net {
    /// How many bits it has, 1 to 64.
    pub width: u32,
    /// What drives it.
    pub driver: Driver,
}

/// An operator with two operands, on words without a sign.
#[derive(Clone, Copy)]
pub enum BinaryOperator {
    /// Bit by bit.
    And,
    /// Bit by bit.
    Or,
    /// Bit by bit.
    Xor,
    /// The sum's low bits.
    Add,
    /// The difference's low bits.
    Sub,
    /// The product's low bits.
    Mul,
    /// One bit: whether they are equal.
    Equal,
    /// One bit: whether the first is less.
    Less,
    /// The first, moved up by the second, with zeros from below.
    Left,
    /// The first, moved down by the second, with zeros from above.
    Right,
}

/// What a wire carries.
#[derive(Drop)]
pub enum Expression {
    /// Each bit the other way.
    Not(Net),
    /// An operator with its operands.
    Binary(BinaryOperator, Net, Net),
    /// Of a net, from this bit on, so many bits.
    Part(Net, u32, u32),
    /// The first net's bits above the second's.
    Join(Net, Net),
    /// By a net of one bit: the second net where it is 1, else the third.
    Choose(Net, Net, Net),
    /// The row, of so many bits, that stands at a net's word.
    Table(Net, u32, Items<u64>),
}
