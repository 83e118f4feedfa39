//! The top frame.
ghost use Rattle.std.specs.Prelude.{◌≡◌, ◌<◌, length, sum_by};
ghost use Rattle.bytecode_model.specs.Sizes.{value_words};
ghost use Rattle.machine_stands.specs.ShownFrames.Shows.{IsShown, EachTop, IsRunning, EachRunning, IsRaising, EachRaising};

use crate::frames_have_room;
use crate::shown_frames::methods::{method_at, number_of};
use image_facts::{CodedMethod, instruction_with};
use jop_core::Machine;
use jop_core::places::METHOD;

/// The number of its method.
pub fn top_method<const N: usize>(machine: &Machine<N>, methods: &[CodedMethod<'_>]) -> u32
    requires { IsShown N methods.now machine.now }
    ensures method { EachTop methods.now machine.now (λ f. f.method ≡ result) }
    ensures known { result < length methods.now }
{
    // The law is for the proof.
    frames_have_room();
    number_of(methods, machine.on_chip(METHOD))
}

/// The place of its instruction, in a state that runs.
pub fn running_pc<const N: usize>(machine: &Machine<N>, methods: &[CodedMethod<'_>]) -> u32
    requires { IsRunning N methods.now machine.now }
    ensures { EachRunning methods.now machine.now (λ f. f.pc ≡ result) }
{
    // The law is for the proof.
    frames_have_room();
    // The contract alone speaks of it.
    let _methods = methods;
    machine.jpc() as u32 - 1
}

/// The place of its instruction, in a state in which an object is raised.
pub fn raising_pc<const N: usize>(machine: &Machine<N>, methods: &[CodedMethod<'_>]) -> u32
    requires { IsRaising N methods.now machine.now }
    ensures { EachRaising methods.now machine.now (λ f. f.pc ≡ result) }
{
    // The law is for the proof.
    frames_have_room();
    // The byte before jpc is one of the instruction.
    let method = method_at(methods, machine.on_chip(METHOD));
    match instruction_with(method.code, machine.jpc() as u32 - 1) {
        Some(pc) => pc,
        None => unreachable!(),
    }
}

/// How many words its operands take, in a state that runs.
pub fn operand_words<const N: usize>(machine: &Machine<N>, methods: &[CodedMethod<'_>]) -> u32
    requires { IsRunning N methods.now machine.now }
    ensures { EachRunning methods.now machine.now (λ f. sum_by value_words f.operands ≡ result) }
{
    // The law is for the proof.
    frames_have_room();
    let method = method_at(methods, machine.on_chip(METHOD));
    machine.sp() - machine.vp() - method.max_locals as u32 - 2
}
