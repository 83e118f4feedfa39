//! What the rules say of an instruction (JVM Specification SE 8, 4.9.1 and 4.10.1.6).
ghost use Rattle.std.specs.Prelude.{◌≡◌};
ghost use Rattle.verifier_types.specs.Uses.{uses_initialized};

use crate::types::VarType;

/// The rules in the order in which they are tried at a place.
#[derive(Clone, Copy)]
pub enum Rule {
    /// No frame reaches the place, or control can fall past the end.
    Flow,
    /// The frame that falls in isn't assignable to that of the StackMapTable.
    Merge,
    /// A local variable, pool index, array code, switch range, key order or count is out of its form.
    Operand,
    /// The stack or a local variable lacks what the instruction needs, or the stack passes its limit.
    Stack,
    /// A protected member of another package is used on an object that isn't of the current class.
    Access,
    /// What isn't initialised is used, or what is initialised is begun.
    Init,
    /// A branch leads where no frame takes it.
    Target,
    /// A handler doesn't take the frame before the instruction.
    Handled,
}

/// What the rules on operands and stack leave of an instruction.
#[derive(Clone, Copy)]
pub enum Checked {
    /// This rule fails.
    Fails(Rule),
    Leaves(Left),
}

/// What is left of an instruction beside the frame behind it.
#[derive(Clone, Copy)]
pub struct Left {
    /// Whether control goes on behind it.
    pub falls: bool,
    /// Whether the rules on access, on what isn't initialised and on targets hold.
    pub access: bool,
    pub init: bool,
    pub target: bool,
}

/// Control goes on, and all rules hold.
pub const GOES: Checked = Checked::Leaves(Left {
    falls: true,
    access: true,
    init: true,
    target: true,
});

/// Control goes on, where what is used is initialised.
pub fn uses(item: VarType) -> Checked
    ensures { result ≡ uses_initialized item }
{
    Checked::Leaves(Left {
        falls: true,
        access: true,
        init: item.is_initialized(),
        target: true,
    })
}
