//! Certificates with prices that were checked.
ghost use Rattle.std.specs.Prelude.{◌≡◌};

use bound_texts::loops::Bounds;
use flow_facts::Facts;
use method_flow::{FlowProgram, Timing};
use priced_cert::PricedCert;
use std::marker::Model;

/// A certificate with prices that meets the conditions, for a program, the bounds of its loops, the timing of the machine and
/// the facts that are given.
#[derive(Drop)]
pub struct CheckedPrices<'a> {
    flow: &'a FlowProgram,
    bounds: &'a Bounds,
    timing: Timing,
    facts: &'a Facts,
    certificate: &'a PricedCert,
}

impl<'a> Model for CheckedPrices<'a> {
    ghost use Rattle.node_costs.specs.Costs.{bounds_of};
    ghost use Rattle.cert_checker.specs.Answer.{HasCheckWaits};
    ghost use Rattle.fact_checker.specs.Answer.{AcceptedPrices, MeetWithPrices};

    ghost Value = { AcceptedPrices };

    ghost view = { λ k. record { flow = k.flow.now; bounds = k.bounds.now; timing = k.timing; facts = k.facts.now; certificate = k.certificate.now } };

    ghost invariant = { λ k. HasCheckWaits k.timing
        × MeetWithPrices k.flow.now (bounds_of k.flow.now k.bounds.now) k.timing k.facts.now k.certificate.now };
}

impl<'a> CheckedPrices<'a> {
    ghost use Rattle.std.specs.Prelude.{◌≡◌};
    ghost use Rattle.node_costs.specs.Costs.{bounds_of};
    ghost use Rattle.cert_checker.specs.Answer.{HasCheckWaits};
    ghost use Rattle.fact_checker.specs.Answer.{MeetWithPrices};

    /// The certificate, which meets the conditions.
    pub(crate) fn new(
        flow: &'a FlowProgram,
        bounds: &'a Bounds,
        timing: Timing,
        facts: &'a Facts,
        certificate: &'a PricedCert,
    ) -> Self
        requires waits { HasCheckWaits timing }
        requires meets { MeetWithPrices flow.now (bounds_of flow.now bounds.now) timing facts.now certificate.now }
        ensures { result ≡ record { flow = flow.now; bounds = bounds.now; timing = timing; facts = facts.now; certificate = certificate.now } }
    {
        CheckedPrices {
            flow,
            bounds,
            timing,
            facts,
            certificate,
        }
    }

    /// The number of the method that the certificate is about.
    pub fn root(&self) -> u32
        ensures root { result ≡ self.now.certificate.plain.root }
        ensures waits { HasCheckWaits self.now.timing }
        ensures meets { MeetWithPrices self.now.flow (bounds_of self.now.flow self.now.bounds) self.now.timing self.now.facts self.now.certificate }
    {
        self.certificate.plain().root()
    }

    /// The bound that it shows, in cycles, or `None` where the method never ends.
    pub fn bound(&self) -> Option<u64>
        ensures bound { result ≡ self.now.certificate.plain.bound }
        ensures waits { HasCheckWaits self.now.timing }
        ensures meets { MeetWithPrices self.now.flow (bounds_of self.now.flow self.now.bounds) self.now.timing self.now.facts self.now.certificate }
    {
        self.certificate.plain().bound()
    }
}
