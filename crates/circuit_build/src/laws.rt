//! Laws of logic, while it is made and when it is finished. Each is a function without a body, whose contract says it.

ghost use Rattle.circuit_build.specs.Laws.{LogicSettles, WellFormedGrows};

/// At each clock the words of a well-formed netlist are words in which its logic is settled.
pub fn logic_settles()
    ensures { LogicSettles }
{}

/// A further wire that is well formed keeps logic so, and each net that was there is there.
pub fn well_formed_grows()
    ensures { WellFormedGrows }
{}
