//! Frames of types (JVM Specification SE 8, 4.10.1.4).
ghost use Rattle.std.specs.Prelude.{◌≡◌, List, ◌∷◌, [], IfOk};
ghost use Rattle.program_tables.specs.Resolved.{resolved};
ghost use Rattle.bytecode_typing.specs.Types as typing;
ghost use Rattle.bytecode_typing.specs.Assignable.{is_assignable_item, is_assignable_frame};
ghost use Rattle.bytecode_typing.specs.Tests.{all_two};
ghost use Rattle.verifier_types.specs.Seen.{type_seen};
ghost use Rattle.verifier_types.specs.Locals.{lists_seen};
ghost use Rattle.verifier_types.specs.Frame.{frame_seen, operands_seen};

use crate::compared::are_assignable_locals;
use crate::local_lists::LocalLists;
use crate::locals::Locals;
use crate::operands::Operands;
use crate::types::VarType;
use base::NoMemory;
use std::alloc::Global;

/// What is known before an instruction. What the types of its local variables are is told with the lists that they refer to.
#[derive(Drop)]
pub struct TypeFrame {
    /// The types of the local variables.
    pub locals: Locals,
    /// Those of the operand stack.
    pub operands: Operands,
    /// Whether `this` isn't initialised yet.
    pub flag: bool,
}

/// Whether operands of the first types may stand for as many of the second.
fn are_assignable_operands(lists: &LocalLists<'_>, from: &Operands, to: &Operands) -> bool
    ensures { result ≡ all_two (is_assignable_item (resolved lists.now.classes)) (operands_seen from.now) (operands_seen to.now) }
{
    from.are_assignable(lists.classes(), to)
}

/// Whether one operand may stand for all those of the frame that control goes on with.
fn takes_one(lists: &LocalLists<'_>, operands: &Operands, item: VarType) -> bool
    ensures { result ≡ all_two (is_assignable_item (resolved lists.now.classes)) (type_seen item ∷ []) (operands_seen operands.now) }
{
    operands.takes_one(lists.classes(), item)
}

impl TypeFrame {
    /// Whether control may go on with the other frame where this one stands.
    pub fn flows_to(&self, lists: &mut LocalLists<'_>, other: &TypeFrame) -> bool
        ensures flows { let ls = lists_seen lists.old in result ≡ is_assignable_frame (resolved lists.old.classes) (frame_seen ls self.now)
            (frame_seen ls other.now) }
        ensures kept { lists.new ≡ lists.old }
    {
        let operands = are_assignable_operands(lists, &self.operands, &other.operands);
        are_assignable_locals(lists, self.locals, other.locals)
            && operands
            && (!self.flag || other.flag)
    }

    /// Whether control may go on with the other frame where the local variables of this one stand with one operand alone.
    pub fn raises_to(&self, lists: &mut LocalLists<'_>, item: VarType, other: &TypeFrame) -> bool
        ensures flows { let ls = lists_seen lists.old in result ≡ is_assignable_frame (resolved lists.old.classes)
            (record (frame_seen ls self.now) { stack = type_seen item ∷ [] }) (frame_seen ls other.now) }
        ensures kept { lists.new ≡ lists.old }
    {
        let operand = takes_one(lists, &other.operands, item);
        are_assignable_locals(lists, self.locals, other.locals)
            && operand
            && (!self.flag || other.flag)
    }

    /// The same frame once more.
    pub fn copied(&self, alloc: Global) -> Result<Self, NoMemory>
        ensures { IfOk result (λ copy. (ls : List (List typing.VarType)) → frame_seen ls copy ≡ frame_seen ls self.now) }
    {
        let operands = self.operands.copied(alloc)?;
        Ok(TypeFrame {
            locals: self.locals,
            operands,
            flag: self.flag,
        })
    }
}
