//! Logic in the making: its wires so far.

ghost use Rattle.std.specs.Prelude.{◌≡◌, [], false};
ghost use Rattle.netlist.specs.Meaning.{result_of, word_on};
ghost use Rattle.circuit_build.specs.Wiring.{Adds, Gives};

use netlist::{Driver, Expression, Net};
use std::alloc::Global;
use std::marker::Model;

/// Logic in the making.
#[derive(Drop)]
pub struct Logic {
    pub(crate) alloc: Global,
    pub(crate) wires: Vec<Expression>,
    // Whether there was no memory for a wire.
    pub(crate) lacks: bool,
}

impl Model for Logic {
    ghost use Rattle.circuit_build.specs.Wiring.{Wiring};

    ghost Value = { Wiring };

    ghost view = { λ l. record { wires = l.wires.items; lacks = l.lacks } };
}

impl Logic {
    /// Logic without wires.
    pub fn new(alloc: Global) -> Self
        ensures { result ≡ record { wires = []; lacks = false } }
    {
        Logic {
            alloc,
            wires: Vec::new(alloc),
            lacks: false,
        }
    }

    /// A further wire, unless memory lacks.
    fn added(&mut self, width: u32, expression: Expression) -> Net
        ensures width { result.width ≡ width }
        ensures adds { Adds self.old self.new result expression }
    {
        let driver = Driver::Wire(self.wires.len());
        self.lacks |= self.wires.push(expression).is_err();
        Net { width, driver }
    }

    /// A further wire, and its word.
    pub(crate) fn wire(&mut self, width: u32, expression: Expression) -> Net
        ensures width { result.width ≡ width }
        ensures adds { Adds self.old self.new result expression }
        ensures gives { Gives self.old self.new (λ ws. word_on ws result ≡ result_of ws expression) }
    {
        self.added(width, expression)
    }
}
