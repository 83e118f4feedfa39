//! Certificates that were checked.
ghost use Rattle.std.specs.Prelude.{◌≡◌};
ghost use Rattle.node_costs.specs.Costs.{bounds_of};
ghost use Rattle.cert_checker.specs.Answer.{Meets};

use bound_texts::loops::Bounds;
use certificates::Cert;
use method_flow::{FlowProgram, Timing};
use std::marker::Model;

/// A certificate that meets the conditions, for a program, the bounds of its loops and the timing of the machine.
#[derive(Drop)]
pub struct Checked<'a> {
    flow: &'a FlowProgram,
    bounds: &'a Bounds,
    timing: Timing,
    certificate: &'a Cert,
}

impl<'a> Model for Checked<'a> {
    ghost use Rattle.node_costs.specs.Costs.{bounds_of};
    ghost use Rattle.cert_checker.specs.Answer.{Accepted, HasCheckWaits, Meets};

    ghost Value = { Accepted };

    ghost view = { λ k. record { flow = k.flow.now; bounds = k.bounds.now; timing = k.timing; certificate = k.certificate.now } };

    ghost invariant = { λ k. HasCheckWaits k.timing × Meets k.flow.now (bounds_of k.flow.now k.bounds.now) k.timing k.certificate.now };
}

impl<'a> Checked<'a> {
    ghost use Rattle.std.specs.Prelude.{◌≡◌};
    ghost use Rattle.node_costs.specs.Costs.{bounds_of};
    ghost use Rattle.cert_checker.specs.Answer.{HasCheckWaits, Meets};

    /// The certificate, which meets the conditions.
    pub(crate) fn new(
        flow: &'a FlowProgram,
        bounds: &'a Bounds,
        timing: Timing,
        certificate: &'a Cert,
    ) -> Self
        requires waits { HasCheckWaits timing }
        requires meets { Meets flow.now (bounds_of flow.now bounds.now) timing certificate.now }
        ensures { result ≡ record { flow = flow.now; bounds = bounds.now; timing = timing; certificate = certificate.now } }
    {
        Checked {
            flow,
            bounds,
            timing,
            certificate,
        }
    }

    /// The number of the method that the certificate is about.
    pub fn root(&self) -> u32
        ensures root { result ≡ self.now.certificate.root }
        ensures waits { HasCheckWaits self.now.timing }
        ensures meets { Meets self.now.flow (bounds_of self.now.flow self.now.bounds) self.now.timing self.now.certificate }
    {
        self.certificate.root()
    }

    /// The bound that it shows, in cycles, or `None` where the method never ends.
    pub fn bound(&self) -> Option<u64>
        ensures bound { result ≡ self.now.certificate.bound }
        ensures waits { HasCheckWaits self.now.timing }
        ensures meets { Meets self.now.flow (bounds_of self.now.flow self.now.bounds) self.now.timing self.now.certificate }
    {
        self.certificate.bound()
    }
}
