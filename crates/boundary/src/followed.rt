//! A whole run of the machine, with a follower that is handed what is seen at each boundary.
ghost use Rattle.std.specs.Prelude.{◌≡◌, ◌≢◌, ◌<◌, ◌^◌, IsOk};
ghost use Rattle.bytecode_model.specs.State.{State};
ghost use Rattle.boundary.specs.Answers.{HasFrames};
ghost use Rattle.boundary.specs.Followed.{FollowsAll, HasSmallCounts, here_of};
ghost use Rattle.boundary.specs.Runs.{RunsAll};
ghost use Rattle.boundary.specs.Session.{IsStateOf};
ghost use Rattle.boundary.specs.Setting.{Setting};
ghost use Rattle.boundary.specs.Activations.{Stage};
ghost use Rattle.boundary.specs.Tops.{IsTopOf, TopFollows, HandsOn, SeesSmallCounts};

use crate::answer::Boundary;
use crate::running::Running;
use crate::runs::RunEnd;
use crate::top::{TopFrame, other_top_frame, top_frame};
use jop_core::laws::cycles_keep;
use jop_core::{DeviceFault, Devices};
use machine_stands::frames_have_room;
use micro_sketch::laws::runs_add_up;
use run_follower::{Follower, Here};

/// The same as [`run`](crate::run), with a follower, which is handed what is seen at each boundary at which the program goes on, the
/// last one included.
pub fn run_followed<const N: usize, D: Devices, F: Follower>(
    running: &mut Running<'_, N>,
    device: &mut D,
    limit: u64,
    follower: &mut F,
) -> Result<RunEnd, DeviceFault>
    requires unbroken { IsOk running.old.mode }
    requires few { limit < 2 ^ 63 }
    ensures runs { RunsAll limit running.old.machine running.new.machine (D.told device.old) (D.told device.new) result }
    ensures follows { FollowsAll F.after limit running.old running.new.machine (D.told device.old) (D.told device.new) follower.old follower.new result }
    ensures methods { running.new.methods ≡ running.old.methods }
    ensures names { D.names device.new ≡ D.names device.old }
{
    // The laws are for the proof.
    runs_add_up();
    cycles_keep();
    match running.mode()? {
        Boundary::Bytecode | Boundary::Raise => follow_to_end(running, device, limit, follower),
        Boundary::Halted => Ok(RunEnd::Ended),
        Boundary::Uncaught(class) => Ok(RunEnd::Uncaught(class)),
    }
}

/// The same from a machine that goes on.
fn follow_to_end<const N: usize, D: Devices, F: Follower>(
    running: &mut Running<'_, N>,
    device: &mut D,
    limit: u64,
    follower: &mut F,
) -> Result<RunEnd, DeviceFault>
    requires going { HasFrames running.old.mode }
    requires few { limit < 2 ^ 63 }
    ensures runs { RunsAll limit running.old.machine running.new.machine (D.told device.old) (D.told device.new) result }
    ensures follows { FollowsAll F.after limit running.old running.new.machine (D.told device.old) (D.told device.new) follower.old follower.new result }
    ensures methods { running.new.methods ≡ running.old.methods }
    ensures names { D.names device.new ≡ D.names device.old }
{
    // The laws are for the proof.
    runs_add_up();
    cycles_keep();
    // Its clause is for the proof alone.
    let _mode = running.mode();
    let mut top = top_frame(running);
    follower.at(here(running, top));
    while running.machine().clock() < limit {
        match running.bytecode(device)? {
            Boundary::Bytecode | Boundary::Raise => {
                top = hand_on(running, top, follower);
            }
            Boundary::Halted => return Ok(RunEnd::Ended),
            Boundary::Uncaught(class) => return Ok(RunEnd::Uncaught(class)),
        }
    }
    Ok(RunEnd::Spent)
}

/// Hands on what is seen at the boundary at which a run stands, and answers its top frame, by that of the boundary before: a step that moves
/// VP makes a frame or leaves one, and where VP is as before the top frame is of the same activation.
#[inline(always)]
fn hand_on<const N: usize, F: Follower>(
    running: &Running<'_, N>,
    before: TopFrame,
    follower: &mut F,
) -> TopFrame
    requires { HasFrames running.now.mode }
    ensures top { TopFollows running.now before result }
    ensures hands { HandsOn F.after running.now before follower.old follower.new }
    ensures small { SeesSmallCounts running.now }
{
    // The law is for the proof.
    frames_have_room();
    let machine = running.machine();
    let (clock, misses) = (machine.clock(), machine.misses());
    if machine.vp() == before.locals {
        follower.at_same_frame(clock, misses, running.pc());
        return before;
    }
    hand_other(running, before, follower)
}

/// The same where a frame was made or left.
#[inline(never)]
fn hand_other<const N: usize, F: Follower>(
    running: &Running<'_, N>,
    before: TopFrame,
    follower: &mut F,
) -> TopFrame
    requires going { HasFrames running.now.mode }
    requires moved { running.now.machine.vp ≢ before.locals }
    ensures top { TopFollows running.now before result }
    ensures hands { HandsOn F.after running.now before follower.old follower.new }
{
    let top = other_top_frame(running, before);
    follower.at(here(running, top));
    top
}

/// What is seen at the boundary at which a run stands, with this top frame.
#[inline(always)]
fn here<const N: usize>(running: &Running<'_, N>, top: TopFrame) -> Here
    requires { HasFrames running.now.mode }
    ensures state { (g : Setting) (s : State) → IsStateOf g running.now.methods running.now.machine s
        → let a : Stage = record { machine = running.now.machine; state = s } in IsTopOf a top → result ≡ here_of a }
    ensures small { HasSmallCounts result }
{
    Here {
        clock: running.machine().clock(),
        misses: running.machine().misses(),
        frames: top.frames,
        method: top.method,
        pc: running.pc(),
    }
}
