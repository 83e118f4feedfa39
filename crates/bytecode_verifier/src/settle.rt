//! The rules behind those on operands and stack, in their order (JVM Specification SE 8, 4.10.1.6).
ghost use Rattle.std.specs.Prelude.{◌≡◌, List};
ghost use Rattle.bytecode_typing.specs.Types as typing;
ghost use Rattle.bytecode_typing.specs.Walk as walk;
ghost use Rattle.verifier_types.specs.Frame.{frame_seen};
ghost use Rattle.verifier_types.specs.Site.{Site, checked_seen};
ghost use Rattle.bytecode_verifier.specs.Settled.{verdict_seen};

use verifier_types::{Checked, Rule, TypeFrame};

/// What is found of an instruction: the first rule that fails, or whether control goes on behind it.
#[derive(Clone, Copy)]
pub enum Verdict {
    Breaks(Rule),
    Passes(bool),
}

/// What is left of an instruction is held to the depth of the operand stack, and then to the rules on access, on initialisation,
/// on targets and on handlers.
pub fn settle(checked: Checked, after: &TypeFrame, max_stack: u16, handled: bool) -> Verdict
    ensures { (s : Site) (before : typing.TypeFrame) (ls : List (List typing.VarType)) → s.body.max_stack ≡ max_stack
        → walk.handlers_hold s.program s.maps s.place before s.body.handlers ≡ handled → verdict_seen result before (frame_seen ls
        after.now) ≡ walk.settled s.program s.number s.method s.body s.maps s.place before (checked_seen checked (frame_seen ls after.now)) }
{
    let left = match checked {
        Checked::Fails(rule) => return Verdict::Breaks(rule),
        Checked::Leaves(left) => left,
    };
    if left.falls && after.operands.words() > usize::from(max_stack) {
        return Verdict::Breaks(Rule::Stack);
    }
    if !left.access {
        return Verdict::Breaks(Rule::Access);
    }
    if !left.init {
        return Verdict::Breaks(Rule::Init);
    }
    if !left.target {
        return Verdict::Breaks(Rule::Target);
    }
    if !handled {
        return Verdict::Breaks(Rule::Handled);
    }
    Verdict::Passes(left.falls)
}
