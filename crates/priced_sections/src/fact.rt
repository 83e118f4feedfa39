//! Facts of how often a node is visited, with their prices.
use std::marker::Model;

/// A node is visited at most so often: in an activation, or from each entry of the loop with this header
/// to the next. Each visit gives the price back, in cycles.
#[derive(Drop)]
pub struct FactPrice {
    node: u32,
    most: u32,
    header: Option<u32>,
    price: u64,
}

impl Model for FactPrice {
    ghost use Rattle.std.specs.Prelude.{[], ◌∷◌};
    ghost use Rattle.priced_sections.specs.Prices.{PricedFact};

    ghost Value = { PricedFact };

    ghost view = { λ f. record { nodes = f.node ∷ []; most = f.most; header = f.header; price = f.price } };
}

impl FactPrice {
    ghost use Rattle.std.specs.Prelude.{◌≡◌, ◌*◌, ◌^◌, ◌<◌, ◌≤◌, [], ◌∷◌};

    /// The fact that the node is visited at most so often, with its price.
    pub fn new(node: u32, most: u32, header: Option<u32>, price: u64) -> Self
        ensures { result ≡ record { nodes = node ∷ []; most = most; header = header; price = price } }
    {
        FactPrice {
            node,
            most,
            header,
            price,
        }
    }

    /// The node that is visited.
    pub fn node(&self) -> u32
        ensures { self.now.nodes ≡ result ∷ [] }
    {
        self.node
    }

    /// The header of the loop between whose entries visits are counted, if they are.
    pub fn header(&self) -> Option<u32>
        ensures { result ≡ self.now.header }
    {
        self.header
    }

    /// What a visit gives back, in cycles.
    pub fn price(&self) -> u64
        ensures value { result ≡ self.now.price }
        ensures small { self.now.price < 2 ^ 64 }
    {
        self.price
    }

    /// What is due where visits are counted anew: the price of as many visits as the fact allows.
    pub fn due(&self) -> u128
        ensures value { result ≡ self.now.price * self.now.most }
        ensures small { self.now.price * self.now.most < 2 ^ 96 }
    {
        u128::from(self.price) * u128::from(self.most)
    }
}
