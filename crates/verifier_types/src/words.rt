//! How words of the operand stack are dropped, copied and exchanged (JVM Specification SE 8, 2.11.8 and 6.5).

use crate::types::VarType;

/// How many words are taken.
#[derive(Clone, Copy)]
pub enum Width {
    Zero,
    One,
    Two,
}

/// The topmost words are dropped, copied below the words under them, or exchanged with these.
#[derive(Clone, Copy)]
pub enum Form {
    Drop,
    Copy,
    Swap,
}

/// Items that were taken off together.
#[derive(Clone, Copy)]
pub enum Group {
    Nothing,
    Item(VarType),
    /// The first was on top.
    Pair(VarType, VarType),
}
