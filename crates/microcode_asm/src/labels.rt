//! The labels of a text.
ghost use Rattle.std.specs.Prelude.{◌≡◌, ◌≤◌, ◌<◌, ◌%◌, ℕ, List, [], ◌∷◌, IfOk, OnOk, IfSome, length, map, nat_eq};
ghost use Rattle.std.specs.Option.{option_or};
ghost use Rattle.std.specs.Cmp.Lexicographic.{pointwise};
ghost use Rattle.std.specs.Map.{lookup};
ghost use Rattle.base.specs.Sizes.{longest_file};
ghost use Rattle.indexmap.specs.IndexMap.{get_by};
ghost use Rattle.microcode_asm.specs.Parts.{is};
ghost use Rattle.microcode_asm.specs.Statements.{line_of};
ghost use Rattle.microcode_asm.specs.Programs.{labels_at, labels_from, read_lines, size_at};
ghost use Rattle.microcode_asm.specs.SoFar.{places_by};

use crate::line::read_line;
use ascii_text::lines;
use base::NoMemory;
use indexmap::IndexMap;
use std::alloc::Global;

/// How many words stand before each label, by its name.
pub(crate) type Labels = IndexMap<Vec<u8>, u32>;

/// The address of a label, if it stands in the text.
pub(crate) fn place_of(labels: &Labels, label: &[u8]) -> Option<u16>
    ensures place { result ≡ places_by labels.now label.now }
    ensures range { IfSome result (λ to. to < 2048) }
{
    match labels.get(label) {
        Some(words) => Some(address(*words)),
        None => None,
    }
}

/// The address of the word before which there are so many.
fn address(words: u32) -> u16
    ensures { result ≡ words % 2048 }
{
    (words % 2048) as u16
}

/// The labels of the lines of a text that are of the grammar.
pub(crate) fn read_labels(alloc: Global, text: &[u8]) -> Result<Labels, NoMemory>
    requires { length text.now ≤ longest_file }
    ensures { IfOk result (λ labels. (name : List ℕ) → get_by (λ k. pointwise nat_eq name k.items) labels ≡ lookup (is name)
        (labels_from 0 (read_lines text.now))) }
{
    let mut labels = IndexMap::new(alloc);
    let mut words = 0u32;
    for line in lines(text) {
        words += add_line(alloc, &mut labels, line, words)?;
    }
    Ok(labels)
}

/// Puts the labels of a line before which there are so many words behind the others, and answers how many words it makes.
fn add_line(alloc: Global, labels: &mut Labels, text: &[u8], words: u32) -> Result<u32, NoMemory>
    ensures labels { OnOk result ((name : List ℕ) → get_by (λ k. pointwise nat_eq name k.items) labels.new
        ≡ option_or (get_by (λ k. pointwise nat_eq name k.items) labels.old) (lookup (is name) (labels_at words (line_of text.now)))) }
    ensures size { IfOk result (λ size. size ≡ size_at (line_of text.now)) }
{
    let Some(line) = read_line(alloc, text)? else {
        return Ok(0);
    };
    add_labels(alloc, labels, line.labels.as_slice(), words)?;
    Ok(line.statement.size())
}

/// Puts labels before which there are so many words behind the others.
fn add_labels(
    alloc: Global,
    labels: &mut Labels,
    names: &[&[u8]],
    words: u32,
) -> Result<(), NoMemory>
    ensures { OnOk result ((name : List ℕ) → get_by (λ k. pointwise nat_eq name k.items) labels.new
        ≡ option_or (get_by (λ k. pointwise nat_eq name k.items) labels.old) (lookup (is name) (map (λ n. (n, words)) (map (λ n. n.now) names.now)))) }
{
    for name in names {
        add_label(alloc, labels, name, words)?;
    }
    Ok(())
}

/// Puts a label behind the others, if it does not stand among them.
fn add_label(alloc: Global, labels: &mut Labels, name: &[u8], words: u32) -> Result<(), NoMemory>
    ensures { OnOk result ((q : List ℕ) → get_by (λ k. pointwise nat_eq q k.items) labels.new
        ≡ option_or (get_by (λ k. pointwise nat_eq q k.items) labels.old) (lookup (is q) ((name.now, words) ∷ []))) }
{
    if labels.get(name).is_some() {
        return Ok(());
    }
    let key = Vec::from_slice(alloc, name)?;
    labels.insert(key, words)?;
    Ok(())
}
