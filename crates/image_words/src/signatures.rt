//! The names and descriptors of the methods of interfaces, by number.
ghost use Rattle.std.specs.Prelude.{◌≡◌, ℕ, [], length, Some, IfOk, OnOk};
ghost use Rattle.program_tables.specs.Lists.{with_item};
ghost use Rattle.image_words.specs.Signatures.{same_symbols, symbols_at, number_of, IsNumbered, KeepsNumbers, HasSignatures};

use crate::members::{class_at, is_interface, method_count};
use base::NoMemory;
use class_lookup::{Classes, Place};
use indexmap::IndexSet;
use std::alloc::Global;
use std::marker::Model;

/// Names with descriptors, by their symbols, each once, with a number for each: its place in the order in which they came.
/// Contracts see them as the list of the pairs of symbols.
#[derive(Drop)]
pub(crate) struct Signatures {
    symbols: IndexSet<(u32, u32)>,
}

impl Model for Signatures {
    ghost use Rattle.std.specs.Prelude.{ℕ, List};

    ghost Value = { List (ℕ × ℕ) };

    ghost view = { λ a. a.symbols.keys };
}

impl Signatures {
    fn new(alloc: Global) -> Self
        ensures { result ≡ [] }
    {
        Signatures {
            symbols: IndexSet::new(alloc),
        }
    }

    /// How many there are.
    pub(crate) fn count(&self) -> usize
        ensures { result ≡ length self.now }
    {
        self.symbols.len()
    }

    /// The number of the name and the descriptor of these symbols.
    pub(crate) fn number(&self, symbols: (u32, u32)) -> Option<usize>
        ensures { result ≡ number_of self.now symbols }
    {
        self.symbols.get_index_of(&symbols)
    }

    /// Adds a name with a descriptor, unless it is among them.
    fn insert(&mut self, symbols: (u32, u32)) -> Result<(), NoMemory>
        ensures { OnOk result (self.new ≡ with_item same_symbols self.old symbols) }
    {
        self.symbols.insert(symbols)?;
        Ok(())
    }
}

/// The symbols of the name and of the descriptor of a method.
pub(crate) fn symbols_at(classes: &Classes, place: Place) -> Option<(u32, u32)>
    ensures { result ≡ symbols_at classes.now place }
{
    match class_at(classes, place.class) {
        Some(class) => match class.methods.as_slice().get(place.index) {
            Some(method) => Some((
                classes.symbol(place.class, method.name),
                classes.symbol(place.class, method.descriptor),
            )),
            None => None,
        },
        None => None,
    }
}

/// Adds the names and the descriptors of the methods of a class.
fn add_signatures(
    signatures: &mut Signatures,
    classes: &Classes,
    class: u32,
) -> Result<(), NoMemory>
    ensures kept { OnOk result (KeepsNumbers signatures.old signatures.new) }
    ensures there { OnOk result ((i : ℕ) (symbols : ℕ × ℕ) → symbols_at classes.now (class, i) ≡ Some symbols → IsNumbered signatures.new symbols) }
{
    for index in 0..method_count(classes, class) {
        if let Some(symbols) = symbols_at(classes, Place { class, index }) {
            signatures.insert(symbols)?;
        }
    }
    Ok(())
}

/// The names and the descriptors of the methods of interfaces.
pub(crate) fn interface_signatures(alloc: Global, classes: &Classes) -> Result<Signatures, NoMemory>
    ensures { IfOk result (λ made. HasSignatures classes.now made) }
{
    let mut signatures = Signatures::new(alloc);
    for class in 0..classes.class_count() {
        if is_interface(classes, class) {
            add_signatures(&mut signatures, classes, class)?;
        }
    }
    Ok(signatures)
}
