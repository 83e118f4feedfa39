//! What bounds are made of.
ghost use Rattle.method_flow.specs.Costs.{IsPrintedOf};

use bound_texts::loops::Bounds;
use method_flow::{FlowMethod, FlowProgram, Timing};
use micro_flow::{CostParams, greatest_invoke_cost};
use node_costs::greatest_load;
use std::marker::Model;

/// A program, the bounds of its loops and the timing of the machine, with the cycles that the dearest invoke takes at most and the
/// greatest load of all its methods, which are paid around each activation.
#[derive(Drop)]
pub struct Task<'a> {
    flow: &'a FlowProgram,
    bounds: &'a Bounds,
    timing: Timing,
    invoke: u64,
    greatest_load: u64,
}

impl<'a> Model for Task<'a> {
    ghost use Rattle.bound_finder.specs.Known.{BoundSetting, IsTask};

    ghost Value = { BoundSetting };

    ghost view = { λ a. record { flow = a.flow.now; bounds = a.bounds.now; timing = a.timing } };

    ghost invariant = { λ a. IsTask (record { flow = a.flow.now; bounds = a.bounds.now; timing = a.timing }) a.invoke a.greatest_load };
}

impl<'a> Task<'a> {
    ghost use Rattle.std.specs.Prelude.{◌≡◌, ◌≤◌, ◌<◌, length, Some, slice_get};
    ghost use Rattle.bound_finder.specs.Known.{ForEach, IsBoundSetting};

    /// The task of these parts.
    pub fn new(flow: &'a FlowProgram, bounds: &'a Bounds, timing: Timing) -> Self
        requires read { timing.read ≤ 63 }
        requires write { timing.write ≤ 63 }
        requires sizes { 0 < timing.block_words }
        ensures { result ≡ record { flow = flow.now; bounds = bounds.now; timing = timing } }
    {
        let invoke = greatest_invoke_cost(CostParams {
            r: timing.read,
            w: timing.write,
            pairs: 0,
            entries: 0,
        });
        Task {
            flow,
            bounds,
            timing,
            invoke,
            greatest_load: greatest_load(flow, timing.read),
        }
    }

    /// The program.
    pub fn flow(&self) -> &FlowProgram
        ensures { result.now ≡ self.now.flow }
    {
        self.flow
    }

    /// The bounds of its loops.
    pub fn bounds(&self) -> &Bounds
        ensures { result.now ≡ self.now.bounds }
    {
        self.bounds
    }

    /// The timing of the machine.
    pub fn timing(&self) -> Timing
        ensures timing { result ≡ self.now.timing }
        ensures form { IsBoundSetting self.now }
    {
        self.timing
    }

    /// The method of this number.
    pub fn method(&self, m: u32) -> &FlowMethod
        requires { m < length self.now.flow.methods }
        ensures { slice_get self.now.flow.methods m ≡ Some result.now }
    {
        self.flow.method(m)
    }

    /// What is printed of a method whose number with all loads is `full`: before it the dearest invoke, and after it the greatest load,
    /// of the method that control comes back to. A method that can't end has none.
    pub fn printed(&self, full: Option<u64>) -> Option<u128>
        ensures { ForEach self.now (λ P. IsPrintedOf P self.now.timing full result) }
    {
        match full {
            Some(full) => {
                Some(u128::from(self.invoke) + u128::from(full) + u128::from(self.greatest_load))
            }
            None => None,
        }
    }
}
