//! Laws of netlists, and worked examples. Each is a function without a body, whose contract says it.

ghost use Rattle.netlist.specs.Examples.{AreWorked};
ghost use Rattle.netlist.specs.Laws.{WordsStayInRange};

/// Netlists that were worked out by hand do what they should.
pub fn worked_netlists()
    ensures { AreWorked }
{}

/// Each word of a well-formed netlist stays within its width.
pub fn words_stay_in_range()
    ensures { WordsStayInRange }
{}
