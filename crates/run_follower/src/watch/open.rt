//! The activations that haven't ended.
ghost use Rattle.std.specs.Prelude.{◌≡◌, List, replicate, Some, None, IfOk, slice_set};
ghost use Rattle.run_follower.specs.declared.here.Here.{Here};
ghost use Rattle.run_follower.specs.Handed.{later_in};
ghost use Rattle.run_follower.specs.Watch.Opened.{begun_into, begun_since, ended_at, open_after};

use crate::Here;
use crate::watch::activation::{Activation, Begun};
use base::NoMemory;
use std::alloc::Global;
use std::marker::Model;

/// The activations that haven't ended, each at the number of frames with which it began, and the last boundary. An activation that begins
/// with more frames than there are places isn't held.
#[derive(Drop)]
pub struct OpenActivations {
    last: Option<Here>,
    begun: Vec<Option<Begun>>,
}

impl Model for OpenActivations {
    ghost use Rattle.run_follower.specs.Watch.Opened.{Open};
    ghost use Rattle.run_follower.specs.Watch.Level.{NoneBeganAt};

    ghost Value = { Open };

    ghost view = { λ s. record { last = s.last; begun = s.begun.items } };

    ghost invariant = { λ s. NoneBeganAt s.last s.begun.items };
}

impl OpenActivations {
    /// None, and no boundary yet, with places for the numbers of frames below `frames`. The only error is that there is no memory for them.
    pub fn new(alloc: Global, frames: u32) -> Result<Self, NoMemory>
        ensures { IfOk result (λ w. w ≡ record { last = None; begun = replicate frames None }) }
    {
        Ok(OpenActivations {
            last: None,
            begun: vec![in alloc; None; frames as usize]?,
        })
    }

    /// Goes on to the next boundary. Answers the activation that ends there, if one that is held does.
    pub fn at(&mut self, here: Here) -> Option<Activation>
        ensures after { self.new ≡ open_after self.old here }
        ensures ended { result ≡ ended_at self.old.begun here }
    {
        let last = self.last;
        self.last = Some(here);
        between(&mut self.begun, last, here)
    }

    /// Goes on to a boundary of the same activation as the last one, at which none ends. Where there was none, nothing changes.
    #[inline(always)]
    pub fn at_same_frame(&mut self, clock: u64, misses: u64, pc: u32)
        ensures after { (last : Here) → self.old.last ≡ Some last → self.new ≡ open_after self.old (later_in last clock misses pc) }
        ensures ended { (last : Here) → self.old.last ≡ Some last → ended_at self.old.begun (later_in last clock misses pc) ≡ None }
        ensures none { self.old.last ≡ None → self.new ≡ self.old }
    {
        if let Some(last) = &mut self.last {
            last.clock = clock;
            last.misses = misses;
            last.pc = pc;
        }
    }
}

/// Takes out the activation that ends at this boundary, and puts in the one that begins since the last one.
fn between(held: &mut [Option<Begun>], last: Option<Here>, here: Here) -> Option<Activation>
    ensures held { held.new ≡ begun_since last here (slice_set held.old here.frames None) }
    ensures ended { result ≡ ended_at held.old here }
{
    let ended = take_ended(held, here);
    if let Some(last) = last {
        put_begun(held, last, here);
    }
    ended
}

/// Takes out the activation that ends at this boundary.
fn take_ended(held: &mut [Option<Begun>], here: Here) -> Option<Activation>
    ensures taken { held.new ≡ slice_set held.old here.frames None }
    ensures ended { result ≡ ended_at held.old here }
{
    let place = here.frames as usize;
    if place >= held.len() {
        return None;
    }
    let begun = held[place];
    held[place] = None;
    match begun {
        Some(begun) => Some(Activation {
            begun: begun.here,
            method: begun.method,
            ended: here,
        }),
        None => None,
    }
}

/// Puts in the activation that begins between these two boundaries, if one does.
fn put_begun(held: &mut [Option<Begun>], last: Here, here: Here)
    ensures { held.new ≡ begun_into last here held.old }
{
    let place = last.frames as usize;
    if last.frames < here.frames && place < held.len() {
        held[place] = Some(Begun {
            here: last,
            method: here.method,
        });
    }
}
