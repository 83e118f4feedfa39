//! All frames.
ghost use Rattle.std.specs.Prelude.{◌≡◌, ◌-◌, ◌+◌, ◌≤◌, ◌<◌, ℕ, length, slice_index};
ghost use Rattle.machine_stands.specs.StandsFor.{stack_words};
ghost use Rattle.machine_stands.specs.ShownFrames.Shows.{IsShown, EachState};
ghost use Rattle.machine_stands.specs.ShownFrames.Frames.{HasStack, EachFrameAt};

use crate::frames_have_room;
use crate::shown_frames::methods::method_at;
use image_facts::CodedMethod;
use jop_core::Machine;
use jop_core::places::{METHOD, STACK};

/// Where a frame stands: its local variables begin at an on-chip place, and the record of its method lies at a place of the
/// image.
#[derive(Clone, Copy)]
pub struct FramePlace {
    locals: u32,
    method: u32,
}

/// The word of the stack at a place, the two top ones of which are in A and B.
fn stack_word<const N: usize>(machine: &Machine<N>, place: u32) -> u32
    requires low { STACK ≤ place }
    requires high { place ≤ machine.now.sp + 2 }
    requires stack { HasStack N machine.now }
    ensures { result ≡ slice_index (stack_words machine.now) (place - STACK) }
{
    let sp = machine.sp();
    if place <= sp {
        machine.on_chip(place)
    } else if place == sp + 1 {
        machine.b()
    } else {
        machine.a()
    }
}

/// The place of the caller's frame, where the frame at a place has a caller.
fn caller_of<const N: usize>(
    machine: &Machine<N>,
    methods: &[CodedMethod<'_>],
    at: FramePlace,
) -> FramePlace
    requires state { IsShown N methods.now machine.now }
    requires frame { (number : ℕ) × EachFrameAt methods.now machine.now at number }
    requires called { STACK < at.locals }
    ensures caller { (number : ℕ) → EachFrameAt methods.now machine.now at number → EachFrameAt methods.now machine.now result (number + 1) }
    ensures lower { result.locals < at.locals }
{
    // The law is for the proof.
    frames_have_room();
    // The saved words stand behind the local variables: SP, the place to go on at, VP, the pool and the method of the caller.
    let saved = at.locals + method_at(methods, at.method).max_locals as u32;
    FramePlace {
        locals: stack_word(machine, saved + 2),
        method: stack_word(machine, saved + 4),
    }
}

/// How many there are.
pub fn frame_count<const N: usize>(machine: &Machine<N>, methods: &[CodedMethod<'_>]) -> u32
    requires { IsShown N methods.now machine.now }
    ensures { EachState methods.now machine.now (λ s. length s.frames ≡ result) }
{
    // The law is for the proof.
    frames_have_room();
    let mut at = FramePlace {
        locals: machine.vp(),
        method: machine.on_chip(METHOD),
    };
    let mut count = 1;
    while at.locals > STACK {
        at = caller_of(machine, methods, at);
        count += 1;
    }
    count
}
