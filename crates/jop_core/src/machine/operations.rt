//! What microinstructions do, apart from branches, flags and the next address.
ghost use Rattle.std.specs.Prelude.{◌≡◌, ◌≢◌, ◌<◌};
ghost use Rattle.jop_core.specs.Operations.{input_word, operated, halted_at_boot, branch_target};
ghost use Rattle.jop_core.specs.Steps.{body_of, acted, replaced};

use crate::halt::Halt;
use crate::machine::Machine;
use crate::places::STACK;
use crate::steps::Action;
use base::{branch_holds, number, shift_right, sign_extend8, sign_extend16, signed_less};
use microcode::isa::Operation;

impl<const N: usize> Machine<N> {
    /// Pops, and sets A: what an operation on B and A does with its result.
    fn replace(&mut self, word: u32)
        ensures { self.new ≡ replaced word self.old }
    {
        let _ = self.pop();
        self.a = word;
    }

    /// What a microinstruction that doesn't branch does, apart from its flags, where `ldin` is given this input.
    /// One match decides among all of them.
    #[inline(always)]
    pub(super) fn act(&mut self, action: &Action, input: Option<u8>)
        ensures { self.new ≡ acted input (body_of action.now) self.old }
    {
        match *action {
            Action::Nop | Action::Wait | Action::Bz(_) | Action::Bnz(_) | Action::Jmp(_) => {}
            Action::Pop | Action::Stout => {
                let _ = self.pop();
            }
            Action::Dup => self.push(self.a),
            Action::Add => self.replace(self.b.wrapping_add(self.a)),
            Action::Sub => self.replace(self.b.wrapping_sub(self.a)),
            Action::And => self.replace(self.b & self.a),
            Action::Or => self.replace(self.b | self.a),
            Action::Xor => self.replace(self.b ^ self.a),
            Action::Shl => self.replace(self.b.wrapping_shl(self.a)),
            Action::Shr => self.replace(shift_right(self.b, self.a % 32)),
            Action::Ushr => self.replace(self.b.wrapping_shr(self.a)),
            Action::Mul => self.replace(self.b.wrapping_mul(self.a)),
            Action::Slt => self.replace(number(signed_less(self.b, self.a))),
            Action::Sltu => self.replace(number(self.b < self.a)),
            Action::Ldo => self.push(self.operand),
            Action::Ldo8 => self.push(sign_extend8(self.operand)),
            Action::Ldo16 => self.push(sign_extend16(self.operand)),
            Action::Ldl => self.push_word(self.vp as u64 + self.operand as u64),
            Action::Stl => self.store(self.vp as u64 + self.operand as u64),
            Action::Ld0 => self.push_word(self.vp as u64),
            Action::Ld1 => self.push_word(self.vp as u64 + 1),
            Action::Ld2 => self.push_word(self.vp as u64 + 2),
            Action::Ld3 => self.push_word(self.vp as u64 + 3),
            Action::St0 => self.store(self.vp as u64),
            Action::St1 => self.store(self.vp as u64 + 1),
            Action::St2 => self.store(self.vp as u64 + 2),
            Action::St3 => self.store(self.vp as u64 + 3),
            Action::Ldvp => self.push(self.vp),
            Action::Stvp => self.set_vp(),
            Action::Ldsp => self.push(self.sp),
            Action::Stsp => self.set_sp(),
            Action::Ldjpc => self.push(self.jpc as u32),
            Action::Stjpc => self.set_jpc(),
            Action::Star => self.set_ar(),
            Action::Ldmi => self.push_word(self.ar as u64),
            Action::Stmi => self.store(self.ar as u64),
            Action::Stmra => self.start_read(),
            Action::Stmwa => self.set_write_address(),
            Action::Stmwd => self.start_write(),
            Action::Ldmrd => self.push_value(),
            Action::Stbc => self.switch(),
            Action::Jbr => self.branch_if(),
            Action::Jbg => self.go_to_target(),
            Action::Ldin => self.push(word_of_input(input)),
            Action::Hltb => self.halt_at_boot(Halt::Ended),
            Action::Hltu => self.halt_at_boot(Halt::Uncaught),
            Action::Stm(place) => self.store(place as u64),
            Action::Ldm(place) => self.push_word(place as u64),
            Action::Ldi(number) => self.push_word(32 + number as u64),
        }
    }

    fn set_vp(&mut self)
        ensures { self.new ≡ operated None Operation.Stvp self.old }
    {
        let top = self.pop();
        let place = self.place(top as u64);
        self.vp = place;
    }

    fn set_sp(&mut self)
        ensures { self.new ≡ operated None Operation.Stsp self.old }
    {
        let top = self.pop();
        let place = self.place(top as u64);
        self.sp = place;
    }

    fn set_jpc(&mut self)
        ensures { self.new ≡ operated None Operation.Stjpc self.old }
    {
        let top = self.pop();
        self.jpc = (top % 65536) as u16;
    }

    fn set_ar(&mut self)
        ensures { self.new ≡ operated None Operation.Star self.old }
    {
        let top = self.pop();
        let place = self.place(top as u64);
        self.ar = place;
    }

    fn start_read(&mut self)
        ensures { self.new ≡ operated None Operation.Stmra self.old }
    {
        let top = self.pop();
        self.memory.start_read(top);
    }

    /// Pushes what was read.
    fn push_value(&mut self)
        ensures { self.new ≡ operated None Operation.Ldmrd self.old }
    {
        let value = self.memory.value();
        self.push(value);
    }

    fn set_write_address(&mut self)
        ensures { self.new ≡ operated None Operation.Stmwa self.old }
    {
        let top = self.pop();
        self.write_address = top;
    }

    fn start_write(&mut self)
        ensures { self.new ≡ operated None Operation.Stmwd self.old }
    {
        let top = self.pop();
        let address = self.write_address;
        self.memory.start_write(address, top);
    }

    /// Goes to the target of the current opcode.
    fn go_to_target(&mut self)
        ensures { self.new ≡ operated None Operation.Jbg self.old }
    {
        let target = self.branch_target();
        self.jpc = target;
    }

    fn branch_if(&mut self)
        ensures { self.new ≡ operated None Operation.Jbr self.old }
    {
        let taken = branch_holds(self.opcode, self.b, self.a);
        let _ = self.pop();
        if taken {
            self.go_to_target();
        }
    }

    fn branch_target(&self) -> u16
        ensures { result ≡ branch_target self.now }
    {
        let offset = sign_extend16(self.operand) % 65536;
        ((self.jpc as u32 + 65533 + offset) % 65536) as u16
    }

    /// Halts, where the top frame is boot's.
    #[tactic(auto, using(crate::proofs::Pausing::paused_halted))]
    fn halt_at_boot(&mut self, halt: Halt)
        requires { halt ≢ Halt.Running }
        ensures { self.new ≡ halted_at_boot halt self.old }
    {
        if self.vp == STACK {
            self.halt = halt;
            self.paused = true;
        }
    }
}

/// The next byte of the input, and all bits at its end.
fn word_of_input(input: Option<u8>) -> u32
    ensures { result ≡ input_word input }
{
    match input {
        Some(byte) => byte as u32,
        None => u32::MAX,
    }
}
