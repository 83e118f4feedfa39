//! Flags, branches, and what a device is handed.
ghost use Rattle.std.specs.Prelude.{◌≡◌, ◌<◌, ◌^◌, ◌-◌, true, false};
ghost use Rattle.jop_core.specs.State.{seen_of};
ghost use Rattle.jop_core.specs.Cycle.{advanced, branched, with_opd, with_nxt, with_flags, counted};
ghost use Rattle.jop_core.specs.Steps.{meaning};

use crate::machine::Machine;
use crate::steps::Step;
use device_traits::Seen;
use microcode::entry;

impl<const N: usize> Machine<N> {
    pub(super) fn advance(&mut self)
        ensures { self.new ≡ advanced self.old }
    {
        self.mpc = (self.mpc + 1) % 2048;
    }

    #[tactic(auto, using(crate::proofs::Pausing::paused_at))]
    pub(super) fn branch(&mut self, taken: bool, to: u16)
        requires { to < 2048 }
        ensures { self.new ≡ branched taken to self.old }
    {
        if taken {
            self.mpc = to;
            self.stall = 2;
            self.paused = true;
        } else {
            self.advance();
        }
    }

    fn shift_operand(&mut self)
        ensures { self.new ≡ with_opd true self.old }
    {
        let byte = self.byte();
        self.operand = self.operand.wrapping_mul(256).wrapping_add(byte as u32);
        self.jpc = self.jpc.wrapping_add(1);
    }

    fn dispatch(&mut self)
        ensures { self.new ≡ with_nxt true self.old }
    {
        let byte = self.byte();
        self.operand = 0;
        self.opcode = byte;
        self.jpc = self.jpc.wrapping_add(1);
        self.mpc = entry(byte);
    }

    #[inline(always)]
    pub(super) fn follow_flags(&mut self, step: &Step)
        ensures { self.new ≡ with_flags (meaning step.now) self.old }
    {
        let Some(flags) = step.flags else {
            return self.advance();
        };
        if flags.opd {
            self.shift_operand();
        }
        if flags.nxt {
            self.dispatch();
        } else {
            self.advance();
        }
    }

    pub(super) fn seen(&self) -> Seen
        ensures { result ≡ seen_of self.now }
    {
        Seen {
            clock: self.clock,
            mpc: self.mpc,
            a: self.a,
            b: self.b,
            sp: self.sp,
            vp: self.vp,
        }
    }

    pub(super) fn count(&mut self)
        requires { self.old.clock < 2 ^ 64 - 1 }
        ensures { self.new ≡ counted self.old }
    {
        self.clock += 1;
        if !self.memory.ready() {
            self.memory.tick();
        }
    }
}
