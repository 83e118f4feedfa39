//! Certificates of version 3.
ghost use Rattle.std.specs.Prelude.{◌≡◌};

use crate::prices::{Prices, RootPrice};
use certificates::Cert;
use std::marker::Model;

/// A certificate of version 3: one of version 2, the prices of facts that count in an activation of the method that it is
/// about, and for each section the prices of the other facts of its method.
#[derive(Drop)]
pub struct PricedCert {
    plain: Cert,
    root_prices: Vec<RootPrice>,
    prices: Vec<Prices>,
}

impl Model for PricedCert {
    ghost use Rattle.priced_cert.specs.Certificate.{PricedCertificate};

    ghost Value = { PricedCertificate };

    ghost view = { λ c. record { plain = c.plain; root_prices = c.root_prices.items; prices = c.prices.items } };
}

impl PricedCert {
    /// The certificate of these parts.
    pub fn new(plain: Cert, root_prices: Vec<RootPrice>, prices: Vec<Prices>) -> Self
        ensures { result ≡ record { plain = plain; root_prices = root_prices.items; prices = prices.items } }
    {
        PricedCert {
            plain,
            root_prices,
            prices,
        }
    }

    /// The certificate without its prices.
    pub fn plain(&self) -> &Cert
        ensures { result.now ≡ self.now.plain }
    {
        &self.plain
    }

    /// The prices of facts in an activation of its method: methods and nodes rise.
    pub fn root_prices(&self) -> &[RootPrice]
        ensures { result.now ≡ self.now.root_prices }
    {
        self.root_prices.as_slice()
    }

    /// The prices of each section, in the order of the sections.
    pub fn prices(&self) -> &[Prices]
        ensures { result.now ≡ self.now.prices }
    {
        self.prices.as_slice()
    }
}
