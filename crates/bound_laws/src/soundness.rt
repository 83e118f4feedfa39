//! Certificates of methods bound what activations of the methods take on the machine: a law, which `specs/Laws` has, and the bound
//! of a certificate that was checked. Below it, what a frame's stay in its method costs (`stays`).

ghost use Rattle.std.specs.Prelude.{◌≡◌};
ghost use Rattle.activations.specs.Warrant.{BoundsActivations};
ghost use Rattle.bound_laws.specs.Soundness.Laws.{CertificatesAreSound};
ghost use Rattle.bytecode_model.specs.Program.{Program};
ghost use Rattle.node_costs.specs.Costs.{bounds_of};
ghost use Rattle.method_flow.specs.Flow.{IsFlowOf};

pub mod loads;
pub mod stays;

use cert_checker::Checked;

/// Where a certificate meets its conditions, each activation of its root that keeps the bounds of loops takes at most as many
/// cycles as its last line says; where that line says never, no such activation ends. The function does nothing; a caller whose
/// proof needs the law calls it.
pub fn certificates_are_sound()
    ensures { CertificatesAreSound }
{
    // The laws are for the proof. Of activations and their steps:
    activations::laws::places_tell_words();
    activations::laws::steps_are_told();
    activations::laws::activations_are_trees();
    activations::laws::activations_are_walks();
    activations::laws::stays_are_walks();
    activations::laws::stays_keep();
    // of graphs of methods:
    method_runs::typed_graphs::laws::live_graphs_exist();
    method_flow::laws::ending_is_a_walk();
    method_flow::laws::invokes_keep_the_greatest();
    // of sections:
    bound_rules::laws::all_are_met();
    bound_rules::laws::headers_have_bounds();
    bound_rules::laws::no_value_no_end();
    bound_rules::laws::live_edges_stay();
    bound_rules::laws::sections_bound_walks();
    bound_rules::laws::methods_have_code();
    section_check::laws::regions_are_apart();
    section_check::laws::loops_are_entered_at_headers();
    section_check::laws::costs_are_charged();
    section_check::laws::entries_pay_loads();
    // of what stays cost, and of look-ups:
    crate::soundness::stays::stays_are_paid();
    method_cache::regions::laws::loads_keep_the_sum();
    method_cache::regions::laws::look_ups_follow();
    method_cache::regions::laws::stalls_follow();
    base::laws::packed_has_words();
}

/// The bound that a checked certificate shows, in cycles: each activation of its root that keeps the bounds of loops takes at most
/// so many. `None`: no such activation ends.
pub fn warrant(c: &Checked<'_>) -> Option<u64>
    ensures value { result ≡ c.now.certificate.bound }
    ensures holds { (P : Program) → IsFlowOf P c.now.flow → BoundsActivations P c.now.timing (bounds_of c.now.flow c.now.bounds) c.now.certificate.root result }
{
    // The law is for the proof.
    certificates_are_sound();
    c.bound()
}
