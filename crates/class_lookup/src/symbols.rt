//! The numbers of the texts that class files name.

ghost use Rattle.std.specs.Prelude.{◌≡◌, ◌<◌, [], ◌∷◌, length, Some, slice_get, IfOk, OnOk};
ghost use Rattle.class_pool.specs.declared.class.ClassFile.{ClassFile};
ghost use Rattle.class_lookup.specs.Parts.{same_text, class_text};
ghost use Rattle.class_pool.specs.Grammar.{text_at};
ghost use Rattle.class_lookup.specs.Lists.{with_items};
ghost use Rattle.class_lookup.specs.Symbols.{pool_texts, symbol};
ghost use Rattle.class_lookup.specs.Numbered.{number_in, entry_text, HaveNumbers};
ghost use Rattle.class_lookup.specs.Tables.{AreSymbols};

use crate::texts::Texts;
use base::{Items, NoMemory};
use class_pool::{ClassFile, Entry};
use std::alloc::Global;

/// The texts of classes, and for each class the number of the text of each entry of its pool, by place; that of the empty
/// text, 0, where the entry is no text.
#[derive(Drop)]
pub(crate) struct Symbols {
    pub(crate) texts: Texts,
    pub(crate) entries: Vec<Items<u32>>,
}

/// The number of the text of an entry, which is added unless it is there.
fn number_entry(alloc: Global, texts: &mut Texts, entry: &Entry) -> Result<u32, NoMemory>
    requires { number_in texts.old [] ≡ Some 0 }
    ensures texts { OnOk result (texts.new ≡ with_items same_text texts.old (pool_texts (entry.now ∷ []))) }
    ensures number { IfOk result (λ number. number_in texts.new (entry_text entry.now) ≡ Some number) }
{
    match entry {
        Entry::Utf8(units) => texts.insert(alloc, units.as_slice()),
        _ => Ok(0),
    }
}

/// The numbers of the texts of a pool's entries, which are added unless they are there.
fn number_entries(alloc: Global, texts: &mut Texts, entries: &[Entry]) -> Result<Vec<u32>, NoMemory>
    requires { number_in texts.old [] ≡ Some 0 }
    ensures texts { OnOk result (texts.new ≡ with_items same_text texts.old (pool_texts entries.now)) }
    ensures numbers { IfOk result (λ numbers. HaveNumbers texts.new entries.now numbers.items) }
{
    let mut numbers = Vec::new(alloc);
    for entry in entries {
        numbers.push(number_entry(alloc, texts, entry)?)?;
    }
    Ok(numbers)
}

/// The texts of these classes, and the symbols of the entries of their pools.
pub(crate) fn symbols_of(alloc: Global, classes: &[ClassFile]) -> Result<Symbols, NoMemory>
    ensures { IfOk result (λ symbols. AreSymbols classes.now symbols) }
{
    let mut texts = Texts::new(alloc)?;
    let mut entries = Vec::new(alloc);
    for class in classes {
        let numbers = number_entries(alloc, &mut texts, class.pool.entries())?;
        entries.push(Items::new(numbers))?;
    }
    Ok(Symbols { texts, entries })
}

/// The symbol of the text of this index in a class's pool.
pub(crate) fn text_symbol(classes: &[ClassFile], symbols: &Symbols, class: usize, index: u16) -> u32
    requires tables { AreSymbols classes.now symbols.now }
    requires class { class < length classes.now }
    ensures { (c : ClassFile) → slice_get classes.now class ≡ Some c → symbol classes.now (text_at c.pool index) ≡ Some result }
{
    if index == 0 {
        return 0;
    }
    let place = index as usize - 1;
    let numbers = symbols.entries[class].as_slice();
    if place < numbers.len() {
        numbers[place]
    } else {
        0
    }
}

/// The symbol of the name that a Class entry of this index in a class's pool gives.
pub(crate) fn class_symbol(
    classes: &[ClassFile],
    symbols: &Symbols,
    class: usize,
    index: u16,
) -> u32
    requires tables { AreSymbols classes.now symbols.now }
    requires class { class < length classes.now }
    ensures { (c : ClassFile) → slice_get classes.now class ≡ Some c → symbol classes.now (class_text c.pool index) ≡ Some result }
{
    match classes[class].pool.class_name(index) {
        Some(name) => text_symbol(classes, symbols, class, name),
        None => 0,
    }
}
