//! Prices of facts.

use base::NoMemory;
use std::marker::Model;

/// The price of the fact of how often a node of a section's method is visited: in the method's activation, or from each
/// entry of a loop to the next. A node 2p is the instruction at place p, and a node 2p + 1 the raise step at it.
#[derive(Clone, Copy)]
pub struct Price {
    /// The node.
    pub node: u32,
    /// The header of the loop, if visits are counted from entry to entry.
    pub header: Option<u32>,
    /// The price of a visit, in cycles.
    pub price: u64,
}

/// The price of the fact of how often a node of a method is visited in an activation of the root.
#[derive(Clone, Copy)]
pub struct RootPrice {
    /// The number of the method.
    pub method: u32,
    /// The node.
    pub node: u32,
    /// The price of a visit, in cycles.
    pub price: u64,
}

/// The prices of a section: those of the activation, then those of loops. Contracts see them as the list.
#[derive(Drop)]
pub struct Prices {
    prices: Vec<Price>,
}

impl Model for Prices {
    ghost use Rattle.std.specs.Prelude.{List};
    ghost use Rattle.priced_cert.specs.declared.prices.Price.{Price};

    ghost Value = { List Price };

    ghost view = { λ xs. xs.prices.items };
}

impl Prices {
    ghost use Rattle.std.specs.Prelude.{◌≡◌, ◌++◌, ◌∷◌, [], OnOk};

    /// These prices.
    pub fn new(prices: Vec<Price>) -> Self
        ensures { result ≡ prices.items }
    {
        Prices { prices }
    }

    /// Puts a price behind the others.
    pub(crate) fn push(&mut self, price: Price) -> Result<(), NoMemory>
        ensures { OnOk result (self.new ≡ self.old ++ price ∷ []) }
    {
        self.prices.push(price)?;
        Ok(())
    }

    /// The prices, in their order.
    pub fn as_slice(&self) -> &[Price]
        ensures { result.now ≡ self.now }
    {
        self.prices.as_slice()
    }
}
