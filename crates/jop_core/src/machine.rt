//! The machine, one cycle at a time.
ghost use Rattle.std.specs.Prelude.{◌≡◌, ◌<◌, ◌^◌, ◌+◌, ◌-◌, Some, true};
ghost use Rattle.jop_core.specs.Cycle.{performed, waits, ran, asks, puts, at_boundary};
ghost use Rattle.jop_core.specs.Steps.{meaning, HasTarget};
ghost use Rattle.jop_core.specs.Meaning.{is_paused};
ghost use Rattle.jop_core.specs.Ticked.{Ticked, AskedIn, PutOut};

mod control;
mod lookup;
mod operations;
mod readers;
mod reset;
mod words;

use crate::halt::Halt;
use crate::steps::{Action, Step, step_at};
use crate::tick::Tick;
use device_traits::{DeviceFault, Devices};
use machine_memory::stack::StackCache;
use machine_memory::timing::Memory;
use method_cache::MethodCache;
use microcode::{RAISE, entry};
pub use reset::{can_start, can_start_bare};
use std::marker::Model;

/// The place of no word that a byte lies in.
const NOT_FETCHED: u32 = u32::MAX;

/// A machine with `N` on-chip words, of which there are 256, 512 or 1,024.
#[derive(Drop)]
pub struct Machine<const N: usize> {
    a: u32,
    b: u32,
    sp: u32,
    vp: u32,
    ar: u32,
    jpc: u16,
    mpc: u16,
    operand: u32,
    opcode: u8,
    method: u32,
    cache: MethodCache,
    // The bytes of the word of the current method that was fetched last, and its place there.
    fetched: [u8; 4],
    fetched_place: u32,
    stall: u32,
    halt: Halt,
    // Whether no microinstruction runs: the machine has halted, or is stalled.
    paused: bool,
    stack: StackCache<N>,
    memory: Memory,
    write_address: u32,
    clock: u64,
    hits: u64,
    misses: u64,
}

impl<const N: usize> Model for Machine<N> {
    ghost use Rattle.jop_core.specs.State.{MachineState};
    ghost use Rattle.jop_core.specs.Meaning.{state_of, IsKept};

    ghost Value = { MachineState };

    ghost view = { state_of };

    ghost invariant = { IsKept N };
}

impl<const N: usize> Machine<N> {
    /// What a microinstruction does, where `ldin` is given this input.
    #[inline(always)]
    fn perform(&mut self, step: &Step, input: Option<u8>)
        requires { HasTarget step.now.action }
        ensures { self.new ≡ performed input (meaning step.now) self.old }
    {
        match step.action {
            Action::Bz(to) => {
                let top = self.pop();
                self.branch(top == 0, to);
            }
            Action::Bnz(to) => {
                let top = self.pop();
                self.branch(top > 0, to);
            }
            Action::Jmp(to) => self.branch(true, to),
            _ => {
                self.act(&step.action, input);
                self.follow_flags(step);
            }
        }
    }

    /// Whether a microinstruction waits for the port.
    fn waits_at(&self, step: &Step) -> bool
        ensures { result ≡ waits (meaning step.now) self.now }
    {
        match step.action {
            Action::Wait => !self.memory.ready(),
            _ => false,
        }
    }

    /// Runs a microinstruction. It is the most of a cycle, so it is made part of each caller's, with `perform`,
    /// `act` and `follow_flags`: a program with two devices has two cycles, and LLVM would call what they share.
    #[inline(always)]
    fn run(&mut self, step: &Step, input: Option<u8>)
        requires { HasTarget step.now.action }
        ensures { self.new ≡ ran input (Some (meaning step.now)) self.old }
    {
        if !self.waits_at(step) {
            self.perform(step, input);
        }
    }

    /// A call of `cycle` where no microinstruction runs.
    #[tactic(auto, unfolding(crate::specs::Cycle::cycle_of, crate::specs::Cycle::asks_input, crate::specs::Cycle::output_of))]
    fn pause<D: Devices>(&mut self, device: &mut D) -> Result<Tick, DeviceFault>
        requires clock { self.old.clock < 2 ^ 64 - 1 }
        requires paused { is_paused self.old.stall self.old.halt ≡ true }
        ensures ticked { Ticked self.old self.new (D.told device.old) (D.told device.new) result }
        ensures clock { result ≡ Ok Tick.Went → self.new.clock ≡ self.old.clock + 1 }
        ensures names { D.names device.new ≡ D.names device.old }
    {
        if self.halt != Halt::Running {
            return Ok(Tick::Halted);
        }
        device.seen(self.seen())?;
        self.count();
        self.stall -= 1;
        self.paused = self.stall > 0;
        Ok(Tick::Went)
    }

    /// One clock: hands the state to the device, and then does a cycle. A machine that has halted does
    /// nothing. Where a call on the device fails, only the device has changed.
    pub fn cycle<D: Devices>(&mut self, device: &mut D) -> Result<Tick, DeviceFault>
        requires { self.old.clock < 2 ^ 64 - 1 }
        ensures ticked { Ticked self.old self.new (D.told device.old) (D.told device.new) result }
        ensures clock { result ≡ Ok Tick.Went → self.new.clock ≡ self.old.clock + 1 }
        ensures names { D.names device.new ≡ D.names device.old }
    {
        if self.paused {
            return self.pause(device);
        }
        device.seen(self.seen())?;
        let step = step_at(self.mpc);
        let input = ask_in(device, step)?;
        put_out(device, step, self.a)?;
        self.count();
        self.run(step, input);
        Ok(Tick::Went)
    }

    /// Whether the machine is about to run the first microinstruction of a bytecode or of the raise
    /// routine, or has halted.
    pub fn at_boundary(&self) -> bool
        ensures { result ≡ at_boundary self.now }
    {
        self.halt != Halt::Running
            || self.stall == 0 && (self.mpc == entry(self.opcode) || self.mpc == RAISE)
    }
}

/// Asks for the next byte of the input, if a microinstruction does.
fn ask_in<D: Devices>(device: &mut D, step: &Step) -> Result<Option<u8>, DeviceFault>
    ensures asked { AskedIn (D.told device.old) (D.told device.new) (asks (Some (meaning step.now))) result }
    ensures names { D.names device.new ≡ D.names device.old }
{
    match step.action {
        Action::Ldin => device.input(),
        _ => Ok(None),
    }
}

/// Puts the low byte of A out, if a microinstruction does.
fn put_out<D: Devices>(device: &mut D, step: &Step, a: u32) -> Result<(), DeviceFault>
    ensures put { PutOut (D.told device.old) (D.told device.new) (puts (Some (meaning step.now)) a) result }
    ensures names { D.names device.new ≡ D.names device.old }
{
    match step.action {
        Action::Stout => device.output((a % 256) as u8),
        _ => Ok(()),
    }
}
