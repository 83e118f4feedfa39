//! What the activations of each method cost.
ghost use Rattle.std.specs.Prelude.{◌≡◌, List, length, IfOk, slice_set};
ghost use Rattle.run_follower.specs.declared.here.Here.{Here};
ghost use Rattle.run_follower.specs.Watch.Counting.{totals_after, no_totals, rows_more, joined_capped, one_activation};

use crate::watch::activation::Activation;
use crate::watch::open::OpenActivations;
use crate::{Follower, Here};
use base::NoMemory;
use std::alloc::Global;
use std::marker::Model;

/// What is told of the activations of a method that have ended.
#[derive(Clone, Copy)]
pub struct Profile {
    /// How many have ended.
    pub count: u64,
    /// The greatest of their cycles, callees included.
    pub most: u64,
    /// The sum of their cycles.
    pub total: u128,
    /// The sum of their misses of the method cache.
    pub misses: u128,
}

impl Profile {
    /// The same, with one activation more. Each sum stays at its greatest where it is passed.
    fn with(self, ended: Activation) -> Self
        ensures { result ≡ joined_capped self (one_activation ended) }
    {
        let cycles = ended.cycles();
        Profile {
            count: self.count.saturating_add(1),
            most: self.most.max(cycles),
            total: self.total.saturating_add(u128::from(cycles)),
            misses: self.misses.saturating_add(u128::from(ended.misses())),
        }
    }
}

/// Follows a run: keeps a row for each method.
#[derive(Drop)]
pub struct MethodTotals {
    watch: OpenActivations,
    rows: Vec<Profile>,
}

impl Model for MethodTotals {
    ghost use Rattle.run_follower.specs.Watch.Counting.{Totals};

    ghost Value = { Totals };

    ghost view = { λ s. record { watch = s.watch; rows = s.rows.items } };
}

impl MethodTotals {
    /// Has been handed nothing yet. `methods` is how many methods there are, and `frames` the greatest number of frames of the run. The only
    /// error is that there is no memory for the rows and for the activations that haven't ended.
    pub fn new(alloc: Global, methods: u32, frames: u32) -> Result<Self, NoMemory>
        ensures { IfOk result (λ s. s ≡ no_totals methods frames) }
    {
        let nothing = Profile {
            count: 0,
            most: 0,
            total: 0,
            misses: 0,
        };
        let rows = vec![in alloc; nothing; methods as usize]?;
        Ok(MethodTotals {
            watch: OpenActivations::new(alloc, frames)?,
            rows,
        })
    }

    /// What is told of each method, by its number.
    pub fn rows(&self) -> &[Profile]
        ensures { result.now ≡ self.now.rows }
    {
        &self.rows
    }
}

impl Follower for MethodTotals {
    ghost after = { totals_after };

    fn at(&mut self, here: Here) {
        if let Some(ended) = self.watch.at(here) {
            add_to_row(&mut self.rows, ended);
        }
    }

    #[inline(always)]
    fn at_same_frame(&mut self, clock: u64, misses: u64, pc: u32) {
        self.watch.at_same_frame(clock, misses, pc);
    }
}

/// Adds an activation to the row of its method.
fn add_to_row(rows: &mut [Profile], ended: Activation)
    ensures { rows.new ≡ rows_more rows.old ended }
{
    let method = ended.method as usize;
    if method < rows.len() {
        rows[method] = rows[method].with(ended);
    }
}
