//! A line of the text read.
ghost use Rattle.std.specs.Prelude.{◌≡◌, ◌<◌, ◌∷◌, [], codes, length, map, IfOk, MatchOption, All, AllPairs, ◌≢◌};
ghost use Rattle.flow_facts.specs.Lines.{words_in, AreFactWords, AreTotalWords, AreOnlyWords, SayScope, IsMethodName};
ghost use Rattle.flow_facts.specs.Adding.{FindsOneThat, AddsName};
ghost use Rattle.flow_facts.specs.Meaning.{IsSaidBy, AreNames};

use crate::line::{FactLine, OnlyLine, SaidScope, TotalLine};
use crate::name::{Name, Names};
use crate::words::{is, most_of, node_name, read_u32, words_of};
use base::NoMemory;
use std::alloc::Global;

/// What a line says.
#[derive(Drop)]
pub(crate) enum Said {
    /// It is empty or a remark.
    Nothing,
    /// A fact.
    Fact(FactLine),
    /// It is no line of the grammar.
    Malformed,
}

/// What a line says.
pub(crate) fn read_line(alloc: Global, line: &[u8]) -> Result<Said, NoMemory>
    ensures { IfOk result (IsSaidBy line.now) }
{
    match line {
        [] | [b'#', ..] => Ok(Said::Nothing),
        _ => match read_fact(alloc, line)? {
            Some(fact) => Ok(Said::Fact(fact)),
            None => Ok(Said::Malformed),
        },
    }
}

/// The fact that a line says, if it says one.
fn read_fact(alloc: Global, line: &[u8]) -> Result<Option<FactLine>, NoMemory>
    ensures { IfOk result (FindsOneThat (AreFactWords (words_in line.now))) }
{
    let words = words_of(alloc, line)?;
    fact_of(alloc, words.as_slice())
}

/// The fact that words say, if they say one.
fn fact_of(alloc: Global, words: &[&[u8]]) -> Result<Option<FactLine>, NoMemory>
    ensures { IfOk result (FindsOneThat (AreFactWords (map (λ w. w.now) words.now))) }
{
    let [name, place, word, others @ ..] = words else {
        return Ok(None);
    };
    if is(word, b"only") {
        only_fact(alloc, name, place, others)
    } else {
        total_fact(alloc, name, place, word, others)
    }
}

/// The fact of these words, the third of which isn't `only`.
fn total_fact(
    alloc: Global,
    name: &[u8],
    node: &[u8],
    most: &[u8],
    scope: &[&[u8]],
) -> Result<Option<FactLine>, NoMemory>
    requires { most.now ≢ codes "only" }
    ensures { IfOk result (FindsOneThat (AreFactWords (name.now ∷ node.now ∷ most.now ∷ map (λ w. w.now) scope.now))) }
{
    match read_total(alloc, name, node, most, scope)? {
        Some(total) => Ok(Some(FactLine::Total(total))),
        None => Ok(None),
    }
}

/// How often a node is visited at most, if the words say so.
fn read_total(
    alloc: Global,
    name: &[u8],
    node: &[u8],
    most: &[u8],
    scope: &[&[u8]],
) -> Result<Option<TotalLine>, NoMemory>
    ensures { IfOk result (FindsOneThat (AreTotalWords (name.now ∷ node.now ∷ most.now ∷ map (λ w. w.now) scope.now))) }
{
    let Some(node) = node_name(node) else {
        return Ok(None);
    };
    let Some(most) = most_of(most) else {
        return Ok(None);
    };
    let Some(scope) = read_scope(alloc, scope)? else {
        return Ok(None);
    };
    let Some(name) = read_name(alloc, name)? else {
        return Ok(None);
    };
    Ok(Some(TotalLine {
        name,
        node,
        most,
        scope,
    }))
}

/// The scope that the words behind a total say, if they say one.
fn read_scope(alloc: Global, words: &[&[u8]]) -> Result<Option<SaidScope>, NoMemory>
    ensures { IfOk result (FindsOneThat (SayScope (map (λ w. w.now) words.now))) }
{
    match words {
        [] => Ok(Some(SaidScope::Alone)),
        [word, place] if is(word, b"per") => Ok(per_loop(place)),
        [word, name] if is(word, b"in") => in_method(alloc, name),
        _ => Ok(None),
    }
}

/// The scope `per PC`, if the word is a place.
fn per_loop(place: &[u8]) -> Option<SaidScope>
    ensures { FindsOneThat (SayScope (codes "per" ∷ place.now ∷ [])) result }
{
    Some(SaidScope::PerLoop(read_u32(place)?))
}

/// The scope `in NAME`, if the word is a name.
fn in_method(alloc: Global, name: &[u8]) -> Result<Option<SaidScope>, NoMemory>
    ensures { IfOk result (FindsOneThat (SayScope (codes "in" ∷ name.now ∷ []))) }
{
    match read_name(alloc, name)? {
        Some(name) => Ok(Some(SaidScope::InMethod(name))),
        None => Ok(None),
    }
}

/// The name that a word is, if it is one.
fn read_name(alloc: Global, word: &[u8]) -> Result<Option<Name>, NoMemory>
    ensures { IfOk result (λ found. MatchOption found (¬ IsMethodName word.now) (λ name. IsMethodName word.now × (name ≡ word.now))) }
{
    if word.is_empty() {
        return Ok(None);
    }
    Ok(Some(Name::new(alloc, word)?))
}

/// The fact of these words behind which these targets stand.
fn only_fact(
    alloc: Global,
    name: &[u8],
    place: &[u8],
    targets: &[&[u8]],
) -> Result<Option<FactLine>, NoMemory>
    ensures { IfOk result (FindsOneThat (AreFactWords (name.now ∷ place.now ∷ codes "only" ∷ map (λ w. w.now) targets.now))) }
{
    match read_only(alloc, name, place, targets)? {
        Some(only) => Ok(Some(FactLine::Only(only))),
        None => Ok(None),
    }
}

/// What an invoke runs, if the words say so.
fn read_only(
    alloc: Global,
    name: &[u8],
    place: &[u8],
    targets: &[&[u8]],
) -> Result<Option<OnlyLine>, NoMemory>
    ensures { IfOk result (FindsOneThat (AreOnlyWords (name.now ∷ place.now ∷ codes "only" ∷ map (λ w. w.now) targets.now))) }
{
    if targets.is_empty() {
        return Ok(None);
    }
    let Some(place) = read_u32(place) else {
        return Ok(None);
    };
    let Some(targets) = read_names(alloc, targets)? else {
        return Ok(None);
    };
    let Some(name) = read_name(alloc, name)? else {
        return Ok(None);
    };
    Ok(Some(OnlyLine {
        name,
        place,
        targets,
    }))
}

/// The names that words are, if they are some of which no two are the same.
fn read_names(alloc: Global, words: &[&[u8]]) -> Result<Option<Names>, NoMemory>
    ensures { IfOk result (λ found. MatchOption found (¬ AreNames (map (λ w. w.now) words.now))
        (λ names. AreNames names × (names ≡ map (λ w. w.now) words.now))) }
{
    let mut names = Names::new(alloc);
    for word in words {
        if !add_name(alloc, &mut names, word)? {
            return Ok(None);
        }
    }
    Ok(Some(names))
}

/// Puts a word behind the names, if it is a name and none of them.
fn add_name(alloc: Global, names: &mut Names, word: &[u8]) -> Result<bool, NoMemory>
    ensures { IfOk result (AddsName names.old word.now names.new) }
{
    match read_name(alloc, word)? {
        Some(name) => names.insert(name),
        None => Ok(false),
    }
}
