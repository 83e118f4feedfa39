//! Laws of the definitions in `specs/`. The functions do nothing; a caller whose proof needs a law calls its function.

ghost use Rattle.fact_sound.specs.Laws.{PricesAreSound, WithoutFactsPricesAreSound};
ghost use Rattle.fact_sound.specs.Visits.{VisitsArePaid};

/// A stay whose visits are charged something of their own takes at most what its start, its nodes and its edges are charged, and
/// that beside.
pub fn visits_are_paid()
    ensures { VisitsArePaid }
{
    bound_laws::soundness::stays::stays_are_paid();
}

/// Where a certificate with prices meets its conditions, each activation of its root that keeps the bounds of loops and the facts
/// takes at most as many cycles as its last line says; where that line says never, no such activation ends.
pub fn prices_are_sound()
    ensures { PricesAreSound }
{
    // The laws are for the proof. Of activations and their steps:
    activations::laws::places_tell_words();
    activations::laws::steps_are_told();
    activations::laws::activations_are_trees();
    activations::laws::activations_are_walks();
    activations::laws::stays_are_walks();
    fact_keeping::laws::stays_keep_both();
    // of graphs of methods:
    method_runs::typed_graphs::laws::live_graphs_exist();
    method_flow::laws::ending_is_a_walk();
    method_flow::laws::invokes_keep_the_greatest();
    // of sections:
    fact_rules::laws::all_are_met_priced();
    fact_rules::laws::priced_headers_have_bounds();
    fact_rules::laws::no_priced_value_no_end();
    fact_rules::laws::priced_live_edges_stay();
    fact_rules::laws::priced_sections_bound_walks();
    bound_rules::laws::methods_have_code();
    section_check::laws::regions_are_apart();
    section_check::laws::loops_are_entered_at_headers();
    section_check::laws::costs_are_charged();
    section_check::laws::entries_pay_loads();
    // of what stays cost, and of look-ups:
    bound_laws::soundness::stays::stays_are_paid();
    method_cache::regions::laws::loads_keep_the_sum();
    method_cache::regions::laws::look_ups_follow();
    method_cache::regions::laws::stalls_follow();
    base::laws::packed_has_words();
}

/// Where a certificate with prices meets its conditions though no facts are given, its last line bounds all activations of its root
/// that keep the bounds of loops.
pub fn without_facts_prices_are_sound()
    ensures { WithoutFactsPricesAreSound }
{
    prices_are_sound();
    fact_keeping::laws::no_facts_are_asked();
}
