//! Lists of facts with their prices, which are so short that sums of what they are due keep within 128 bits.

use base::NoMemory;
use priced_sections::fact::FactPrice;
use std::alloc::Global;
use std::marker::Model;

/// More facts have no room in a list.
pub const MOST_FACTS: usize = (1 << 24) - 1;

/// Facts with their prices, fewer than 2^24. Contracts see them as the list.
#[derive(Drop)]
pub struct FactPrices {
    facts: Vec<FactPrice>,
}

impl Model for FactPrices {
    ghost use Rattle.std.specs.Prelude.{◌<◌, ◌^◌, List, length};
    ghost use Rattle.priced_sections.specs.Prices.{PricedFact};

    ghost Value = { List PricedFact };

    ghost view = { λ f. f.facts.items };

    ghost invariant = { λ f. length f.facts.items < 2 ^ 24 };
}

impl FactPrices {
    ghost use Rattle.std.specs.Prelude.{◌≡◌, ◌<◌, ◌^◌, ◌++◌, [], ◌∷◌, OnOk, length};

    /// No facts.
    pub fn new(alloc: Global) -> Self
        ensures { result ≡ [] }
    {
        FactPrices {
            facts: Vec::new(alloc),
        }
    }

    /// Puts a fact behind the others, where the list has room.
    pub fn push(&mut self, fact: FactPrice) -> Result<(), NoMemory>
        ensures { OnOk result (self.new ≡ self.old ++ fact ∷ []) }
    {
        if self.facts.len() >= MOST_FACTS {
            return Err(NoMemory);
        }
        self.facts.push(fact)?;
        Ok(())
    }

    /// The facts, in their order.
    pub fn as_slice(&self) -> &[FactPrice]
        ensures facts { result.now ≡ self.now }
        ensures few { length self.now < 2 ^ 24 }
    {
        self.facts.as_slice()
    }
}
