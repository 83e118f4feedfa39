//! What the needs are told of.
use bound_texts::loops::Bounds;
use call_regions::laws::runs_are_calls;
use memory_rules::{Makes, Sites};
use method_flow::{Call, FlowMethod, FlowProgram};
use node_costs::bound_at;
use std::marker::Model;

/// A program, what its instructions make, the bounds of its loops and the lengths of its arrays.
#[derive(Drop)]
pub struct Task<'a> {
    flow: &'a FlowProgram,
    sites: &'a Sites,
    bounds: &'a Bounds,
    lengths: &'a Bounds,
}

impl<'a> Model for Task<'a> {
    ghost use Rattle.memory_bound.specs.Setting.{NeedSetting, IsNeedSetting};

    ghost Value = { NeedSetting };

    ghost view = { λ a. record { flow = a.flow.now; sites = a.sites.now; bounds = a.bounds.now; lengths = a.lengths.now } };

    ghost invariant = { λ a. IsNeedSetting (record { flow = a.flow.now; sites = a.sites.now; bounds = a.bounds.now; lengths = a.lengths.now }) };
}

ghost use Rattle.std.specs.Prelude.{◌≡◌, ◌<◌, ℕ, length, All, Contains, IfSome, IfNone};
ghost use Rattle.std.specs.List.Sorted.{IsStrictlyIncreasing};
ghost use Rattle.method_flow.specs.declared.flow.Call.{Call};
ghost use Rattle.method_flow.specs.Flow.{places_of};

/// The call at a place, among calls that rise by place.
fn call_at(calls: &[Call], place: u32) -> Option<Call>
    requires { IsStrictlyIncreasing (places_of calls.now) }
    ensures found { IfSome result (λ c. Contains calls.now c × (c.place ≡ place)) }
    ensures only { IfSome result (λ c. (d : Call) → Contains calls.now d → d.place ≡ place → d ≡ c) }
    ensures none { IfNone result ((d : Call) → Contains calls.now d → d.place ≡ place → ⊥) }
{
    match calls.binary_search_by_key(&place, |call| call.place) {
        Ok(i) => Some(calls[i]),
        Err(_) => None,
    }
}

impl<'a> Task<'a> {
    ghost use Rattle.std.specs.Prelude.{◌≡◌, ◌↔◌, ◌^◌, ◌<◌, ℕ, length, All, Contains, Some, slice_get};
    ghost use Rattle.method_flow.specs.Calls.{IsStartOf, IsTarget};
    ghost use Rattle.memory_rules.specs.Sites.{IsMadeAt};
    ghost use Rattle.memory_bound.specs.Setting.{ForEach, IsNeedSetting, bounds_in, lengths_in, sites_of, words_of};

    /// The task of these parts.
    pub fn new(
        flow: &'a FlowProgram,
        sites: &'a Sites,
        bounds: &'a Bounds,
        lengths: &'a Bounds,
    ) -> Self
        requires { length sites.now ≡ length flow.now.methods }
        ensures { result ≡ record { flow = flow.now; sites = sites.now; bounds = bounds.now; lengths = lengths.now } }
    {
        Task {
            flow,
            sites,
            bounds,
            lengths,
        }
    }

    /// The program.
    pub fn flow(&self) -> &FlowProgram
        ensures flow { result.now ≡ self.now.flow }
        ensures form { IsNeedSetting self.now }
    {
        self.flow
    }

    /// The bounds of its loops.
    pub fn bounds(&self) -> &Bounds
        ensures { result.now ≡ self.now.bounds }
    {
        self.bounds
    }

    /// The method of this number.
    pub fn method(&self, m: u32) -> &FlowMethod
        requires { m < length self.now.flow.methods }
        ensures { slice_get self.now.flow.methods m ≡ Some result.now }
    {
        self.flow.method(m)
    }

    /// The words of a frame of the method `m`.
    pub fn words(&self, m: u32) -> u32
        requires { m < length self.now.flow.methods }
        ensures words { result ≡ words_of self.now m }
        ensures few { result < 2 ^ 32 }
    {
        self.sites.method(m).words()
    }

    /// What the instruction at a place of the method `m` makes, or `None` where it makes no object.
    pub fn made_at(&self, m: u32, place: u32) -> Option<Makes>
        requires { m < length self.now.flow.methods }
        ensures { IsMadeAt (sites_of self.now m) place result }
    {
        self.sites.method(m).made_at(place)
    }

    /// The length that is given for the arrays which the instruction at a place of the method `m` makes.
    pub fn length_at(&self, m: u32, place: u32) -> Option<u32>
        requires { m < length self.now.flow.methods }
        ensures { result ≡ lengths_in self.now m place }
    {
        bound_at(self.flow, self.lengths, m, place)
    }

    /// The methods that the instruction at a place of the method `m` may run.
    pub fn targets_at(&self, m: u32, place: u32) -> &[u32]
        requires { m < length self.now.flow.methods }
        ensures targets { ForEach self.now (λ P. IsStartOf P m place → (t : ℕ) → Contains result.now t ↔ IsTarget P m place t) }
        ensures known { All (λ t. t < length self.now.flow.methods) result.now }
    {
        // The law is for the proof, and the table is of its form.
        runs_are_calls();
        // Its clause is for the proof alone.
        let _ = self.flow.method_count();
        match call_at(self.flow.method(m).calls(), place) {
            Some(call) => self.flow.targets(call),
            None => &[],
        }
    }
}
