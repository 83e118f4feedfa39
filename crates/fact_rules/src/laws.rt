//! Laws of the definitions in `specs/`. The functions do nothing; a caller whose proof needs a law calls its function.

ghost use Rattle.fact_rules.specs.Examples.{WorkedExamples};
ghost use Rattle.fact_rules.specs.Laws.{AllAreMetPriced, NoPricedValueNoEnd, OneMoreMeetsPriced, OwnPricesBoundWalks, PlainIsPriced, PricedFaultsAreOne};
ghost use Rattle.fact_rules.specs.Laws.{PricedHeadersHaveBounds, PricedLineIsTold, PricedLiveEdgesStay, PricedRefusedIsNotMet};
ghost use Rattle.fact_rules.specs.Laws.{PricedSectionsBoundWalks};

/// The sections of a certificate that meets its conditions meet them one behind another.
pub fn all_are_met_priced()
    ensures { AllAreMetPriced }
{}

/// With one more section behind them that meets its conditions, they all meet theirs.
pub fn one_more_meets_priced()
    ensures { OneMoreMeetsPriced }
{}

/// The header of a loop of a section is an instruction, and the loop has the bound that is given for it.
pub fn priced_headers_have_bounds()
    ensures { PricedHeadersHaveBounds }
{}

/// A method whose section has no value can't end.
pub fn no_priced_value_no_end()
    ensures { NoPricedValueNoEnd }
{
    priced_sections::laws::no_value_no_end();
}

/// From a node of a section's graph, each edge that a run can take is one of that graph.
pub fn priced_live_edges_stay()
    ensures { PricedLiveEdgesStay }
{
    priced_sections::laws::no_value_no_end();
}

/// A section's value bounds what each walk costs that a run can take and that keeps bounds and facts.
pub fn priced_sections_bound_walks()
    ensures with_root_prices { PricedSectionsBoundWalks }
    ensures own_prices { OwnPricesBoundWalks }
{
    priced_live_edges_stay();
    priced_sections::laws::paid_bound_walks();
}

/// A certificate without prices that meets its conditions meets those on one with prices.
pub fn plain_is_priced()
    ensures { PlainIsPriced }
{
    bound_rules::laws::no_value_no_end();
    priced_sections::laws::plain_is_paid();
}

/// A certificate with prices has one fault at most.
pub fn priced_faults_are_one()
    ensures { PricedFaultsAreOne }
{}

/// A certificate with prices that is refused doesn't meet the conditions.
pub fn priced_refused_is_not_met()
    ensures { PricedRefusedIsNotMet }
{}

/// Its last line is told by the number of the root.
pub fn priced_line_is_told()
    ensures { PricedLineIsTold }
{}

/// Sections, prices without a fact and last lines that were worked out by hand.
pub fn worked_examples()
    ensures { WorkedExamples }
{
    bound_rules::laws::worked_examples();
}
