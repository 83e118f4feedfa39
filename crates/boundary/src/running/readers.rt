//! What is read of the state for which a run's machine stands: its top frame, and how many frames there are.
ghost use Rattle.std.specs.Prelude.{◌≡◌, ◌<◌, length, sum_by};
ghost use Rattle.bytecode_model.specs.State.{State};
ghost use Rattle.bytecode_model.specs.Sizes.{value_words};
ghost use Rattle.machine_stands.specs.ShownFrames.Shows.{IsRaising, EachRaising};
ghost use Rattle.boundary.specs.Answers.{HasFrames};
ghost use Rattle.boundary.specs.Setting.{Setting};
ghost use Rattle.boundary.specs.Session.{IsStateOf, EachShownState, EachShownTop};
ghost use Rattle.boundary.specs.Opcodes.{next_opcode};

use crate::laws::stages_agree;
use crate::running::{Running, is_raise};
use bytecode_typing::fitting_states_are_well_formed;
use image_facts::CodedMethod;
use jop_core::Machine;
use machine_stands::shown_frames::{
    frame_count, operand_words, raising_pc, running_pc, top_method,
};

impl<'a, const N: usize> Running<'a, N> {
    /// The number of the method whose frame is on top.
    pub fn method(&self) -> u32
        requires { HasFrames self.now.mode }
        ensures method { EachShownTop self.now (λ f. f.method ≡ result) }
        ensures known { result < length self.now.methods }
    {
        // The laws are for the proof.
        fitting_states_are_well_formed();
        stages_agree();
        // The contract alone speaks of it.
        let _mode = self.mode;
        top_method(&self.machine, self.methods.as_slice())
    }

    /// The place of its instruction.
    #[inline(always)]
    pub fn pc(&self) -> u32
        requires { HasFrames self.now.mode }
        ensures { EachShownTop self.now (λ f. f.pc ≡ result) }
    {
        // The laws are for the proof.
        fitting_states_are_well_formed();
        stages_agree();
        if is_raise(self.mode) {
            return raised_pc(&self.machine, self.methods.as_slice());
        }
        running_pc(&self.machine, self.methods.as_slice())
    }

    /// The opcode of its instruction. There is none while an object is raised.
    pub fn opcode(&self) -> Option<u8>
        requires { HasFrames self.now.mode }
        ensures { (g : Setting) (s : State) → IsStateOf g self.now.methods self.now.machine s → next_opcode g.program s ≡ result }
    {
        // The laws are for the proof.
        fitting_states_are_well_formed();
        stages_agree();
        if is_raise(self.mode) {
            return None;
        }
        Some(self.machine.opcode())
    }

    /// How many frames there are.
    pub fn frames(&self) -> u32
        requires { HasFrames self.now.mode }
        ensures { EachShownState self.now (λ s. length s.frames ≡ result) }
    {
        // The laws are for the proof.
        fitting_states_are_well_formed();
        stages_agree();
        // The contract alone speaks of it.
        let _mode = self.mode;
        frame_count(&self.machine, self.methods.as_slice())
    }

    /// How many words the operands of the top frame take.
    pub fn operands(&self) -> u32
        requires { HasFrames self.now.mode }
        ensures { EachShownTop self.now (λ f. sum_by value_words f.operands ≡ result) }
    {
        // The laws are for the proof.
        fitting_states_are_well_formed();
        stages_agree();
        // They are gone while an object is raised.
        if is_raise(self.mode) {
            return 0;
        }
        operand_words(&self.machine, self.methods.as_slice())
    }
}

/// The place of the top frame's instruction in a state in which an object is raised, out of the way of those that run.
#[inline(never)]
fn raised_pc<const N: usize>(machine: &Machine<N>, methods: &[CodedMethod<'_>]) -> u32
    requires { IsRaising N methods.now machine.now }
    ensures { EachRaising methods.now machine.now (λ f. f.pc ≡ result) }
{
    raising_pc(machine, methods)
}
