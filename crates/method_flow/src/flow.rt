//! What an analysis needs of a program, as one table: codes, the ranges of exception tables, and what invokes may run.

ghost use Rattle.std.specs.Prelude.{◌≡◌, ◌<◌, length, Some, slice_get};
ghost use Rattle.method_flow.specs.Flow.{IsCoded, IsFlow, targets_of_call};

use base::Items;
use std::marker::Model;

/// An entry of an exception table (JVM Specification SE 8, 4.7.3), what it catches apart: it holds from the place `start` up to the
/// place `end`, in bytes of code.
#[derive(Clone, Copy)]
pub struct HandlerRange {
    pub start: u32,
    pub end: u32,
    pub handler: u32,
}

/// An invoke at a place, in bytes of code, and the number of the list of methods that it may run.
#[derive(Clone, Copy)]
pub struct Call {
    pub place: u32,
    pub targets: u32,
}

/// A method with code. Contracts see its parts.
#[derive(Drop)]
pub struct FlowMethod {
    name: Vec<u8>,
    code: Vec<u8>,
    ranges: Vec<HandlerRange>,
    calls: Vec<Call>,
}

impl Model for FlowMethod {
    ghost use Rattle.method_flow.specs.Flow.{Coded, IsCoded};

    ghost Value = { Coded };

    ghost view = { λ k. record { name = k.name.items; code = k.code.items; ranges = k.ranges.items; calls = k.calls.items } };

    ghost invariant = { λ k. IsCoded (record { name = k.name.items; code = k.code.items; ranges = k.ranges.items; calls = k.calls.items }) };
}

impl FlowMethod {
    /// The method with these parts.
    pub fn new(name: Vec<u8>, code: Vec<u8>, ranges: Vec<HandlerRange>, calls: Vec<Call>) -> Self
        requires { IsCoded (record { name = name.items; code = code.items; ranges = ranges.items; calls = calls.items }) }
        ensures { result ≡ record { name = name.items; code = code.items; ranges = ranges.items; calls = calls.items } }
    {
        FlowMethod {
            name,
            code,
            ranges,
            calls,
        }
    }

    /// The class's name, a dot, the method's name and its descriptor.
    pub fn name(&self) -> &[u8]
        ensures { result.now ≡ self.now.name }
    {
        &self.name
    }

    /// The code: whole instructions, from each of which control goes to instructions alone.
    pub fn code(&self) -> &[u8]
        ensures code { result.now ≡ self.now.code }
        ensures whole { IsCoded self.now }
    {
        &self.code
    }

    /// The entries of the exception table, in order.
    pub fn ranges(&self) -> &[HandlerRange]
        ensures ranges { result.now ≡ self.now.ranges }
        ensures whole { IsCoded self.now }
    {
        &self.ranges
    }

    /// The invokes, rising by place.
    pub fn calls(&self) -> &[Call]
        ensures calls { result.now ≡ self.now.calls }
        ensures whole { IsCoded self.now }
    {
        &self.calls
    }
}

/// The methods with code of a program, by number, with what their invokes may run, and the method that is run.
#[derive(Drop)]
pub struct FlowProgram {
    methods: Vec<FlowMethod>,
    targets: Vec<Items<u32>>,
    boot: u32,
}

impl Model for FlowProgram {
    ghost use Rattle.method_flow.specs.Flow.{Flow, IsFlow};

    ghost Value = { Flow };

    ghost view = { λ f. record { methods = f.methods.items; targets = f.targets.items; boot = f.boot } };

    ghost invariant = { λ f. IsFlow (record { methods = f.methods.items; targets = f.targets.items; boot = f.boot }) };
}

impl FlowProgram {
    /// The table with these methods, these lists of targets and this method to be run.
    pub fn new(methods: Vec<FlowMethod>, targets: Vec<Items<u32>>, boot: u32) -> Self
        requires { IsFlow (record { methods = methods.items; targets = targets.items; boot = boot }) }
        ensures { result ≡ record { methods = methods.items; targets = targets.items; boot = boot } }
    {
        FlowProgram {
            methods,
            targets,
            boot,
        }
    }

    /// How many methods there are.
    pub fn method_count(&self) -> u32
        ensures count { result ≡ length self.now.methods }
        ensures form { IsFlow self.now }
    {
        self.methods.len() as u32
    }

    /// The method of this number.
    pub fn method(&self, number: u32) -> &FlowMethod
        requires { number < length self.now.methods }
        ensures { slice_get self.now.methods number ≡ Some result.now }
    {
        &self.methods[number as usize]
    }

    /// The methods that an invoke may run, rising.
    pub fn targets(&self, call: Call) -> &[u32]
        requires { call.targets < length self.now.targets }
        ensures targets { result.now ≡ targets_of_call self.now call }
        ensures form { IsFlow self.now }
    {
        self.targets[call.targets as usize].as_slice()
    }

    /// The number of the method that is run.
    pub fn boot(&self) -> u32
        ensures boot { result ≡ self.now.boot }
        ensures form { IsFlow self.now }
    {
        self.boot
    }
}
