//! Facts by what they say of: a node of a method, and the scope in which its visits are counted.
ghost use Rattle.std.specs.Prelude.{◌≡◌, ◌++◌, ◌∷◌, [], List, false, length, IfOk, OnOk};
ghost use Rattle.std.specs.Option.{option_map_or};
ghost use Rattle.flow_facts.specs.declared.facts.Scope.{Scope};
ghost use Rattle.flow_facts.specs.Facts.{CountFact};
ghost use Rattle.fact_rules.specs.Pricing.{is_scope_of};
ghost use Rattle.fact_checker.specs.Index.{is_same_scope, IsIndexed};

use base::NoMemory;
use flow_facts::{CountFact, Facts, Scope};
use indexmap::IndexMap;
use priced_cert::{Price, RootPrice};
use std::alloc::Global;
use std::marker::Model;

/// What a fact says of.
#[derive(Drop, PartialEq, Eq, Hash)]
pub struct FactKey {
    pub method: u32,
    pub node: u32,
    pub scope: Scope,
}

/// Facts, and the places of those of one node by what they say of; of several that say of the same the first. Contracts see
/// the facts.
#[derive(Drop)]
pub struct FactIndex<'a> {
    facts: &'a Facts,
    places: IndexMap<FactKey, usize>,
}

impl<'a> Model for FactIndex<'a> {
    ghost use Rattle.flow_facts.specs.Facts.{Facts};
    ghost use Rattle.fact_checker.specs.Index.{IsIndexed};

    ghost Value = { Facts };

    ghost view = { λ i. i.facts.now };

    ghost invariant = { λ i. IsIndexed i.facts.now.counts i.places.entries };
}

/// Puts down the place of a fact that is of one node, where none says of the same.
fn add(
    places: &mut IndexMap<FactKey, usize>,
    fact: &CountFact,
    place: usize,
) -> Result<(), NoMemory>
    ensures { OnOk result ((before : List CountFact) → length before ≡ place → IsIndexed before places.old.entries
        → IsIndexed (before ++ fact.now ∷ []) places.new.entries) }
{
    let [node] = fact.nodes() else {
        return Ok(());
    };
    let key = FactKey {
        method: fact.method(),
        node: *node,
        scope: fact.scope(),
    };
    if places.get(&key).is_none() {
        places.insert(key, place)?;
    }
    Ok(())
}

/// The places of facts by what they say of.
fn places(alloc: Global, facts: &[CountFact]) -> Result<IndexMap<FactKey, usize>, NoMemory>
    ensures { IfOk result (λ places. IsIndexed facts.now places.entries) }
{
    let mut places = IndexMap::new(alloc);
    for (place, fact) in facts.iter().enumerate() {
        add(&mut places, fact, place)?;
    }
    Ok(places)
}

/// The scope of the price of a section that names this header, if there is one: of an odd header there is none.
fn scope_of(header: Option<u32>) -> Option<Scope>
    ensures { (s : Scope) → is_scope_of header s ≡ option_map_or (λ c. is_same_scope c s) result false }
{
    match header {
        None => Some(Scope::Own),
        Some(header) if header % 2 == 0 => Some(Scope::Per(header / 2)),
        Some(_) => None,
    }
}

impl<'a> FactIndex<'a> {
    ghost use Rattle.std.specs.Prelude.{◌≡◌, IfOk, option_map};
    ghost use Rattle.fact_rules.specs.Pricing.{fact_at, fact_of, is_in_root};
    ghost use Rattle.fact_checker.specs.Index.{is_same_scope};

    /// The index of these facts. It takes memory for a place of each.
    pub fn new(alloc: Global, facts: &'a Facts) -> Result<Self, NoMemory>
        ensures { IfOk result (λ i. i ≡ facts.now) }
    {
        let places = places(alloc, facts.counts())?;
        Ok(FactIndex { facts, places })
    }

    /// How often the fact of this allows visits, if there is one.
    fn most(&self, key: &FactKey) -> Option<u32>
        ensures { result ≡ option_map (λ f. f.most) (fact_at self.now.counts key.now.method key.now.node (is_same_scope key.now.scope)) }
    {
        let place = *self.places.get(key)?;
        Some(self.facts.counts()[place].most())
    }

    /// How often the fact allows visits that a price of a section of the method is of, if there is one.
    pub fn most_in_section(&self, method: u32, price: Price) -> Option<u32>
        ensures { result ≡ option_map (λ f. f.most) (fact_of self.now method price) }
    {
        self.most(&FactKey {
            method,
            node: price.node,
            scope: scope_of(price.header)?,
        })
    }

    /// How often the fact allows visits that a price in the root is of, if there is one.
    pub fn most_in_root(&self, root: u32, price: RootPrice) -> Option<u32>
        ensures { result ≡ option_map (λ f. f.most) (fact_at self.now.counts price.method price.node (is_in_root root)) }
    {
        self.most(&FactKey {
            method: price.method,
            node: price.node,
            scope: Scope::In(root),
        })
    }
}
