//! A text that was written by hand. A function without a body, whose contract says it.

ghost use Rattle.netlist_text.specs.Examples.{CounterText};

/// A counter of eight bits has the text that it should.
pub fn worked_text()
    ensures { CounterText }
{}
