//! The slots of a cyclic executive.
ghost use Rattle.std.specs.Prelude.{◌≡◌, List, length, IfOk};
ghost use Rattle.run_follower.specs.declared.here.Here.{Here};
ghost use Rattle.run_follower.specs.Watch.Watched.{one_slot, cycles_of};
ghost use Rattle.run_follower.specs.Watch.Counting.{SlotCount, slots_after, no_slots, slots_more, length_from, one_use, plus_capped};

use crate::watch::activation::Activation;
use crate::watch::open::OpenActivations;
use crate::{Follower, Here};
use base::NoMemory;
use std::alloc::Global;
use std::marker::Model;

/// The place of the executive's first call of a slot, in bytes.
const FIRST_CALL: u32 = 9;
/// How many bytes a call of a slot takes.
const CALL_BYTES: u32 = 3;

/// What is told of the slots that have ended.
#[derive(Clone, Copy)]
pub struct Slots {
    /// How many have ended.
    pub ended: u64,
    /// How many of them took more cycles than their length.
    pub late: u64,
    /// The cycles by which the others, and those that took just as many, stayed below their lengths.
    pub idle: u128,
}

impl Slots {
    /// The same, with one use of a slot of this length more. Each number stays at its greatest where it is passed.
    fn with_use(self, length: u64, cycles: u64) -> Self
        ensures { result ≡ plus_capped self (one_use length cycles) }
    {
        let late = if length < cycles { 1 } else { 0 };
        Slots {
            ended: self.ended.saturating_add(1),
            late: self.late.saturating_add(late),
            idle: self
                .idle
                .saturating_add(u128::from(length.saturating_sub(cycles))),
        }
    }
}

/// Follows a run of a cyclic executive: counts the slots that have ended, those that were late, and the idle cycles.
#[derive(Drop)]
pub struct SlotCounter {
    watch: OpenActivations,
    executive: u32,
    lengths: Vec<u64>,
    slots: Slots,
}

impl Model for SlotCounter {
    ghost use Rattle.run_follower.specs.Watch.Counting.{SlotCount};

    ghost Value = { SlotCount };

    ghost view = { λ s. record { watch = s.watch; executive = s.executive; lengths = s.lengths.items; slots = s.slots } };
}

impl SlotCounter {
    /// Has been handed nothing yet. `executive` is the number of the executive's method, `lengths` the lengths of its slots in cycles, and
    /// `frames` the greatest number of frames of the run. The only error is that there is no memory for the activations that haven't ended.
    pub fn new(
        alloc: Global,
        executive: u32,
        lengths: Vec<u64>,
        frames: u32,
    ) -> Result<Self, NoMemory>
        ensures { IfOk result (λ s. s ≡ no_slots executive lengths.items frames) }
    {
        Ok(SlotCounter {
            watch: OpenActivations::new(alloc, frames)?,
            executive,
            lengths,
            slots: Slots {
                ended: 0,
                late: 0,
                idle: 0,
            },
        })
    }

    /// What is told of the slots that have ended.
    pub fn slots(&self) -> Slots
        ensures { result ≡ self.now.slots }
    {
        self.slots
    }
}

impl Follower for SlotCounter {
    ghost after = { slots_after };

    fn at(&mut self, here: Here) {
        if let Some(ended) = self.watch.at(here) {
            self.slots = with_ended(self.slots, self.executive, &self.lengths, ended);
        }
    }

    #[inline(always)]
    fn at_same_frame(&mut self, clock: u64, misses: u64, pc: u32) {
        self.watch.at_same_frame(clock, misses, pc);
    }
}

/// The numbers with one ended activation more, which may be that of a slot.
fn with_ended(slots: Slots, executive: u32, lengths: &[u64], ended: Activation) -> Slots
    ensures { result ≡ slots_more executive lengths.now slots ended }
{
    match length_of_slot(executive, lengths, ended.begun) {
        Some(length) => slots.with_use(length, ended.cycles()),
        None => slots,
    }
}

/// The length of the slot that is called at this boundary.
fn length_of_slot(executive: u32, lengths: &[u64], at: Here) -> Option<u64>
    ensures { result ≡ length_from executive 0 lengths.now at }
{
    if at.method != executive || at.pc < FIRST_CALL {
        return None;
    }
    let bytes = at.pc - FIRST_CALL;
    if bytes % CALL_BYTES != 0 {
        return None;
    }
    lengths.get((bytes / CALL_BYTES) as usize).copied()
}
