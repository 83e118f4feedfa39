//! A run of the machine.
ghost use Rattle.std.specs.Prelude.{◌≡◌, ◌<◌, ◌^◌, true, false, length, IfOk};
ghost use Rattle.machine_memory.specs.Stack.Size.{IsSize};
ghost use Rattle.jop_core.specs.Reset.{CanStartBare, bare_reset, linked_reset};
ghost use Rattle.image_facts.specs.Methods.{AreMethods};
ghost use Rattle.boundary.specs.Answers.{goes_on, is_raise};
ghost use Rattle.boundary.specs.Setting.{bare_setting};
ghost use Rattle.boundary.specs.Linked.{IsHeldImage, BeginsEach};
ghost use Rattle.boundary.specs.Session.{goes, Begins, IsAtStep, HasEnded, EndsWith, AllGoOnSo};
ghost use Rattle.boundary.specs.Advances.{StepsAll, PassesTime};

mod readers;

use crate::answer::Boundary;
use crate::laws::{
    bare_images_are_programs, bare_runs_begin, linked_runs_begin, stages_advance, stages_agree,
    stages_end_soon,
};
use crate::methods::Methods;
use base::NoMemory;
use bytecode_typing::fitting_states_are_well_formed;
use image_facts::CodedMethod;
use jop_core::laws::cycles_keep;
use jop_core::{Bare, Config, DeviceFault, Devices, Machine};
use micro_flow::laws::entries_are_reached_by_dispatch;
use micro_sketch::laws::runs_add_up;
use micro_sketch::step::{Stepped, to_boundary};
use std::alloc::Global;
use std::marker::Model;

/// The number of the type of the first class. The types of the arrays of numbers come before those of classes.
const FIRST_CLASS: u32 = 8;

/// A machine that runs a program: at each boundary it stands for a state of the program, and it still stands for
/// that state where the device's `input` or `output` failed. It has `N` on-chip words, of which there are 256, 512 or 1,024.
#[derive(Drop)]
pub struct Running<'a, const N: usize> {
    machine: Machine<N>,
    // Of the program that it runs.
    methods: Methods<'a>,
    // How it goes on, or the call on the device that failed.
    mode: Result<Boundary, DeviceFault>,
}

impl<'a, const N: usize> Model for Running<'a, N> {
    ghost use Rattle.boundary.specs.Session.{Session};
    ghost use Rattle.boundary.specs.Meaning.{session_of, IsKept};

    ghost Value = { Session };

    ghost view = { session_of };

    ghost invariant = { IsKept N };
}

impl<'a, const N: usize> Running<'a, N> {
    /// A machine at reset over a bare image. The only error is that there was no memory.
    pub fn start_bare(alloc: Global, image: &'a Bare, config: Config) -> Result<Self, NoMemory>
        requires size { IsSize N }
        requires room { CanStartBare image.now config }
        ensures machine { IfOk result (λ r. r.machine ≡ bare_reset N image.now config) }
        ensures mode { IfOk result (λ r. r.mode ≡ Ok Boundary.Bytecode) }
        ensures methods { let g = bare_setting image.now N config.memory in IfOk result (λ r. AreMethods g.program g.places r.methods) }
        ensures one { IfOk result (λ r. length r.methods ≡ 1) }
        ensures begins { IfOk result (λ r. Begins (bare_setting image.now N config.memory) r.machine) }
    {
        // The laws are for the proof.
        bare_images_are_programs();
        bare_runs_begin();
        let methods = Methods::of_bare(image);
        match Machine::bare(alloc, image, config) {
            Ok(machine) => Ok(Running {
                machine,
                methods,
                mode: Ok(Boundary::Bytecode),
            }),
            Err(fault) => Err(fault),
        }
    }

    /// A machine at reset over the words of a linked program's image, whose methods with code are these, by number. The
    /// only error is that there was no memory.
    pub fn start(
        alloc: Global,
        words: &[u32],
        methods: &'a [CodedMethod<'a>],
        config: Config,
    ) -> Result<Self, NoMemory>
        requires program { IsHeldImage N words.now methods.now config }
        ensures starts { IfOk result (λ r. r ≡ record { machine = linked_reset N words.now config; methods = methods.now; mode = Ok Boundary.Bytecode }) }
        ensures begins { IfOk result (λ r. BeginsEach N words.now config r.machine) }
    {
        // The law is for the proof.
        linked_runs_begin();
        match Machine::new(alloc, words, config) {
            Ok(machine) => Ok(Running {
                machine,
                methods: Methods::All(methods),
                mode: Ok(Boundary::Bytecode),
            }),
            Err(fault) => Err(fault),
        }
    }

    /// The machine.
    pub fn machine(&self) -> &Machine<N>
        ensures { result.now ≡ self.now.machine }
    {
        &self.machine
    }

    /// How the state goes on for which the machine stands, or which call on the device failed.
    pub fn mode(&self) -> Result<Boundary, DeviceFault>
        ensures is { result ≡ self.now.mode }
        ensures all { IfOk result (AllGoOnSo self.now.machine) }
    {
        // The laws are for the proof.
        stages_agree();
        fitting_states_are_well_formed();
        machine_stands::fixed_words_are_read();
        image_facts::words_are_read_and_written();
        image_facts::words_lie();
        image_facts::image_words_lie();
        self.mode
    }

    /// Goes on to the next boundary: by an instruction, or by one frame in which a handler is looked for. At the end, and
    /// after a fault, it answers that again; then nothing changes. After a fault of `input` or `output` the machine is about
    /// to make that call; after one of `seen` it stands where it was handed.
    #[inline(always)]
    pub fn bytecode<D: Devices>(&mut self, device: &mut D) -> Result<Boundary, DeviceFault>
        requires clock { self.old.machine.clock < 2 ^ 63 }
        ensures steps { goes self.old ≡ true → StepsAll self.old.machine self.new.machine (D.told device.old) (D.told device.new) result }
        ensures time { goes self.old ≡ true → PassesTime self.old.machine self.new.machine result }
        ensures mode { self.new.mode ≡ result }
        ensures methods { self.new.methods ≡ self.old.methods }
        ensures rests { goes self.old ≡ false → (self.new ≡ self.old) × (device.new ≡ device.old) }
        ensures names { D.names device.new ≡ D.names device.old }
    {
        if goes_on(self.mode) {
            // The law is for the proof.
            cycles_keep();
            let answer = go_on(&mut self.machine, device);
            self.mode = answer;
            return answer;
        }
        self.mode
    }
}

/// Whether the machine goes on.
fn goes_on(mode: Result<Boundary, DeviceFault>) -> bool
    ensures { result ≡ goes_on mode }
{
    match mode {
        Ok(Boundary::Bytecode | Boundary::Raise) => true,
        _ => false,
    }
}

/// Whether an object is raised.
fn is_raise(mode: Result<Boundary, DeviceFault>) -> bool
    ensures { result ≡ is_raise mode }
{
    match mode {
        Ok(Boundary::Raise) => true,
        _ => false,
    }
}

/// Goes on from an instruction or a raise, up to the next boundary.
#[inline(always)]
fn go_on<const N: usize, D: Devices>(
    machine: &mut Machine<N>,
    device: &mut D,
) -> Result<Boundary, DeviceFault>
    requires stands { IsAtStep machine.old }
    requires clock { machine.old.clock < 2 ^ 63 }
    ensures steps { StepsAll machine.old machine.new (D.told device.old) (D.told device.new) result }
    ensures names { D.names device.new ≡ D.names device.old }
{
    // The laws are for the proof.
    stages_advance();
    stages_agree();
    stages_end_soon();
    runs_add_up();
    entries_are_reached_by_dispatch();
    match to_boundary(machine, device)? {
        Stepped::Next => Ok(Boundary::Bytecode),
        Stepped::Raise => Ok(Boundary::Raise),
        Stepped::Halted => match class_uncaught(machine) {
            None => Ok(Boundary::Halted),
            Some(class) => Ok(Boundary::Uncaught(class)),
        },
    }
}

/// Where a machine has halted over an object that wasn't caught, the number of its class. There is none where the program
/// returned.
fn class_uncaught<const N: usize>(machine: &Machine<N>) -> Option<u32>
    requires { HasEnded machine.now }
    ensures { EndsWith machine.now result }
{
    // The laws are for the proof.
    fitting_states_are_well_formed();
    machine_stands::fixed_words_are_read();
    image_facts::words_are_read_and_written();
    image_facts::words_lie();
    image_facts::image_words_lie();
    match machine.uncaught() {
        None => None,
        Some(number) => Some(number - FIRST_CLASS),
    }
}
