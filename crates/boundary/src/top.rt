//! The top frame, from one boundary to the next.
ghost use Rattle.std.specs.Prelude.{◌≡◌, ◌≢◌, ◌<◌, ◌≤◌, ◌+◌, ◌-◌};
ghost use Rattle.bytecode_model.specs.State.{State};
ghost use Rattle.boundary.specs.Answers.{HasFrames};
ghost use Rattle.boundary.specs.Setting.{Setting};
ghost use Rattle.boundary.specs.Session.{IsStateOf};
ghost use Rattle.boundary.specs.Tops.{IsTopOf, TopFollows};

use crate::running::Running;
use machine_stands::frames_have_room;

/// The top frame at a boundary, and how many frames there are.
#[derive(Clone, Copy)]
pub struct TopFrame {
    /// The on-chip place of its local variables.
    pub locals: u32,
    /// The number of its method.
    pub method: u32,
    /// How many frames there are.
    pub frames: u32,
}

/// The top frame of a run that goes on.
pub fn top_frame<const N: usize>(running: &Running<'_, N>) -> TopFrame
    requires { HasFrames running.now.mode }
    ensures { (g : Setting) (s : State) → IsStateOf g running.now.methods running.now.machine s
        → IsTopOf (record { machine = running.now.machine; state = s }) result }
{
    TopFrame {
        locals: running.machine().vp(),
        method: running.method(),
        frames: running.frames(),
    }
}

/// The top frame of a run that goes on, by what it was at the boundary before, where VP has moved: a frame was made or left.
pub fn other_top_frame<const N: usize>(running: &Running<'_, N>, before: TopFrame) -> TopFrame
    requires going { HasFrames running.now.mode }
    requires moved { running.now.machine.vp ≢ before.locals }
    ensures { TopFollows running.now before result }
{
    // The law is for the proof.
    frames_have_room();
    let locals = running.machine().vp();
    TopFrame {
        locals,
        method: running.method(),
        frames: frames_now(before, locals),
    }
}

/// How many frames there are where the local variables of the top one have come to begin at another place: one more where that is
/// higher. No frame takes no word, so the place is past the number of those below.
fn frames_now(before: TopFrame, locals: u32) -> u32
    ensures made { before.locals < locals → before.frames < locals → result ≡ before.frames + 1 }
    ensures left { locals ≤ before.locals → result ≡ before.frames - 1 }
{
    if before.locals < locals {
        before.frames.saturating_add(1)
    } else {
        before.frames.saturating_sub(1)
    }
}
