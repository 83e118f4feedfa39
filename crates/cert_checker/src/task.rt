//! What is found of a program before sections are checked.
ghost use Rattle.std.specs.Prelude.{◌≡◌, ◌<◌, ℕ, length, IfOk, Some, slice_get};
ghost use Rattle.bytecode_model.specs.Program.{Program};
ghost use Rattle.method_flow.specs.Flow.{IsFlowOf};
ghost use Rattle.node_costs.specs.Costs.{bounds_of};
ghost use Rattle.cert_checker.specs.Setting.{CheckSetting, IsFit, AreFits, IsTiming};

use base::NoMemory;
use bound_texts::loops::Bounds;
use call_regions::{Region, region};
use method_flow::{FlowMethod, FlowProgram, Timing};
use node_costs::{bound_at, loads};
use std::alloc::Global;
use std::marker::Model;

/// Whether all that may run while a method does fits the method cache together.
#[derive(Clone, Copy)]
pub enum Fit {
    /// It does, and the loads of all these methods take so many cycles.
    Fits(u64),
    /// It doesn't.
    Exceeds,
}

/// A program, the bounds of its loops and the timing of the machine, with what is found of each method before sections are
/// checked.
#[derive(Drop)]
pub struct Task<'a> {
    flow: &'a FlowProgram,
    bounds: &'a Bounds,
    timing: Timing,
    fits: Vec<Fit>,
}

impl<'a> Model for Task<'a> {
    ghost use Rattle.cert_checker.specs.Setting.{CheckSetting, IsCheckSetting};

    ghost Value = { CheckSetting };

    ghost view = { λ a. record { flow = a.flow.now; bounds = a.bounds.now; timing = a.timing; fits = a.fits.items } };

    ghost invariant = { λ a. IsCheckSetting (record { flow = a.flow.now; bounds = a.bounds.now; timing = a.timing; fits = a.fits.items }) };
}

/// Whether all that may run while the method `m` does fits the cache together.
fn fit_of(alloc: Global, f: &FlowProgram, m: u32, t: Timing) -> Result<Fit, NoMemory>
    requires known { m < length f.now.methods }
    requires timing { IsTiming t }
    ensures { IfOk result (λ fit. (P : Program) → IsFlowOf P f.now → IsFit P t m fit) }
{
    match region(alloc, f, m, t.blocks, t.block_words)? {
        Region::Fits(methods) => Ok(Fit::Fits(loads(f, methods.as_slice(), t.read))),
        Region::Exceeds => Ok(Fit::Exceeds),
    }
}

/// The same of each method.
fn fits(alloc: Global, f: &FlowProgram, t: Timing) -> Result<Vec<Fit>, NoMemory>
    requires { IsTiming t }
    ensures { IfOk result (λ fits. AreFits f.now t fits.items) }
{
    let mut fits = Vec::new(alloc);
    for m in 0..f.method_count() {
        fits.push(fit_of(alloc, f, m, t)?)?;
    }
    Ok(fits)
}

impl<'a> Task<'a> {
    ghost use Rattle.std.specs.Prelude.{◌≡◌, ◌<◌, ℕ, length, IfOk, Some, slice_get};
    ghost use Rattle.node_costs.specs.Costs.{bounds_of};
    ghost use Rattle.cert_checker.specs.Setting.{IsTiming, IsCheckSetting};

    /// What is found of a program. It takes memory for a word of each method.
    pub fn new(
        alloc: Global,
        flow: &'a FlowProgram,
        bounds: &'a Bounds,
        timing: Timing,
    ) -> Result<Self, NoMemory>
        requires { IsTiming timing }
        ensures { IfOk result (λ s. (s.flow ≡ flow.now) × (s.bounds ≡ bounds.now) × (s.timing ≡ timing)) }
    {
        match fits(alloc, flow, timing) {
            Ok(fits) => Ok(Task {
                flow,
                bounds,
                timing,
                fits,
            }),
            Err(fault) => Err(fault),
        }
    }

    /// The program.
    pub fn flow(&self) -> &FlowProgram
        ensures flow { result.now ≡ self.now.flow }
        ensures form { IsCheckSetting self.now }
    {
        self.flow
    }

    /// The timing of the machine.
    pub fn timing(&self) -> Timing
        ensures timing { result ≡ self.now.timing }
        ensures form { IsCheckSetting self.now }
    {
        self.timing
    }

    /// The method of this number.
    pub fn method(&self, m: u32) -> &FlowMethod
        requires { m < length self.now.flow.methods }
        ensures { slice_get self.now.flow.methods m ≡ Some result.now }
    {
        self.flow.method(m)
    }

    /// Whether all that may run while the method does fits the cache together.
    pub fn fit(&self, m: u32) -> Fit
        requires { m < length self.now.flow.methods }
        ensures { slice_get self.now.fits m ≡ Some result }
    {
        self.fits[m as usize]
    }

    /// The bound of the loop of the method whose header is the instruction at a place.
    pub fn bound(&self, m: u32, pc: u32) -> Option<u32>
        requires { m < length self.now.flow.methods }
        ensures { result ≡ bounds_of self.now.flow self.now.bounds m pc }
    {
        bound_at(self.flow, self.bounds, m, pc)
    }
}
