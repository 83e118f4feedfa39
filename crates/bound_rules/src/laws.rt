//! Laws of the definitions in `specs/`. The functions do nothing; a caller whose proof needs a law calls its function.

ghost use Rattle.bound_rules.specs.Examples.{WorkedExamples};
ghost use Rattle.bound_rules.specs.Laws.{AllAreMet, CalledFit, ChargedLoopsAreOne, ChargesAreOne, CostsAreTold, FaultsAreOne, GraphsAreOne};
ghost use Rattle.bound_rules.specs.Laws.{HeadersAreInstructions, HeadersHaveBounds, IterationsAreTold, LiveEdgesStay, LiveGraphsAreOne, MethodsHaveCode};
ghost use Rattle.bound_rules.specs.Laws.{NoValueNoEnd, NumbersAreOne, OneMoreMeets, PrintedIsOne, PrintedIsTold, RefusedIsNotMet, SectionGraphsAreOne};
ghost use Rattle.bound_rules.specs.Laws.{SectionsBoundWalks, ValuesAreTold};

/// The sections of a certificate that meets its conditions meet them one behind another.
pub fn all_are_met()
    ensures { AllAreMet }
{}

/// With one more section behind them that meets its conditions, they all meet theirs.
pub fn one_more_meets()
    ensures { OneMoreMeets }
{}

/// A method whose section has no value can't end.
pub fn no_value_no_end()
    ensures { NoValueNoEnd }
{
    section_check::laws::no_value_no_exit();
}

/// From a node of a section's graph, each edge that a run can take is one of that graph.
pub fn live_edges_stay()
    ensures { LiveEdgesStay }
{
    section_check::laws::no_value_no_exit();
}

/// A section's value bounds what each walk costs that a run can take and that keeps the bounds of loops.
pub fn sections_bound_walks()
    ensures { SectionsBoundWalks }
{
    live_edges_stay();
    section_check::laws::own_bounds_suffice();
    section_check::laws::accepted_bound_walks();
}

/// The header of a loop of a section is an instruction, and the loop has the bound that is given for it.
pub fn headers_have_bounds()
    ensures { HeadersHaveBounds }
{}

/// What may run while a method with code does has code.
pub fn methods_have_code()
    ensures { MethodsHaveCode }
{}

/// Which of these loops are charged is told by it, too.
pub fn charges_are_one()
    ensures { ChargesAreOne }
{
    loop_nest::laws::walks_lead_on();
    loop_nest::laws::headers_dominate_members();
    loop_nest::laws::loops_are_nested();
    loop_nest::laws::dominance_is_antisymmetric();
}

/// The costs of the nodes that a run can come to are told by what is added at their places, and by them the value of the live
/// graph, and whether iterations of its loops exceed 64 bits together.
pub fn values_are_told()
    ensures costs { CostsAreTold }
    ensures value { ValuesAreTold }
    ensures iterations { IterationsAreTold }
{}

/// Where all that may run while a method does fits the cache together, so does what runs while one does that it calls.
pub fn called_fit()
    ensures { CalledFit }
{}

/// A method whose calls end has one family of numbers, and one number is printed of it.
pub fn numbers_are_one()
    ensures numbers { NumbersAreOne }
    ensures printed { PrintedIsOne }
{
    charges_are_one();
}

/// What is printed of a method is told by its number with all loads.
pub fn printed_is_told()
    ensures { PrintedIsTold }
{}

/// A method has one graph, one live graph, and by what its invokes are told one section graph.
pub fn graphs_are_one()
    ensures whole { GraphsAreOne }
    ensures live { LiveGraphsAreOne }
    ensures section { SectionGraphsAreOne }
{}

/// The header of a loop of a method's graph, or of its live graph, is an instruction.
pub fn headers_are_instructions()
    ensures { HeadersAreInstructions }
{
    loop_nest::laws::walks_lead_on();
}

/// The loops of a method's live graph are told by it, with their bounds and whatever they are charged.
pub fn charged_loops_are_one()
    ensures { ChargedLoopsAreOne }
{}

/// A certificate has one fault at most.
pub fn faults_are_one()
    ensures { FaultsAreOne }
{}

/// A certificate that is refused doesn't meet the conditions.
pub fn refused_is_not_met()
    ensures { RefusedIsNotMet }
{}

/// Sections, certificates and refusals that were worked out by hand.
pub fn worked_examples()
    ensures { WorkedExamples }
{}
