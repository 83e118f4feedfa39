//! Operand stacks of types (JVM Specification SE 8, 4.10.1.4).
ghost use Rattle.std.specs.Prelude.{◌≡◌};
ghost use Rattle.bytecode_typing.specs.Types.{stack_words};
ghost use Rattle.verifier_types.specs.Seen.{stack_seen};

use crate::types::VarType;

/// An operand stack of types. Contracts see the list of them, the topmost first (`operands_seen`).
#[derive(Drop)]
pub struct Operands {
    /// From the bottom to the top.
    pub(crate) items: Vec<VarType>,
    pub(crate) words: usize,
    ghost counted: { words ≡ stack_words (stack_seen items.items) },
}
