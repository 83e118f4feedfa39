//! Binary trees over indices, of a height: a node of height 0 is an item, and any other is the number of the pair of its two halves.
ghost use Rattle.std.specs.Prelude.{◌≡◌, ℕ, List, ◌<◌, ◌≤◌, ◌-◌, ◌^◌, [], ◌∷◌, ◌++◌, length, replicate, set, slice_get, Some, IfOk, IfSome};
ghost use Rattle.persistent_lists.specs.Tables.{IsDifference, IsPosition};
ghost use Rattle.persistent_lists.specs.Answers.{AreAnswered};
ghost use Rattle.persistent_lists.specs.Known.{AllPass, IsGrown};
ghost use Rattle.persistent_lists.specs.Trees.{items, IsTree, IsNode, IsFilled, IsTreeOf, Extends};
ghost use Rattle.persistent_lists.specs.Residues.{AreAmong, HasResidues, HaveMore};

use crate::known::{Known, TreePair};
use crate::pairs::Pairs;
use crate::residues::{Residues, both, may_hold, residue_of};
use base::NoMemory;

/// The items of two lists at an index at which these differ.
#[derive(Clone, Copy)]
pub struct Difference {
    pub first: u32,
    pub second: u32,
}

/// A tree, and that of as many times the rest alone.
#[derive(Clone, Copy)]
pub(crate) struct Filled {
    pub(crate) node: u32,
    pub(crate) rest: u32,
}

/// How many items a tree of this height has.
fn size_of(height: u32) -> u32
    requires { height ≤ 16 }
    ensures { result ≡ 2 ^ height }
{
    1 << height
}

/// The least height of a tree with so many items.
pub(crate) fn height_of(width: u32) -> u32
    requires { width < 2 ^ 16 }
    ensures room { width ≤ 2 ^ result }
    ensures most { result ≤ 16 }
{
    for height in 0..16 {
        if width <= size_of(height) {
            return height;
        }
    }
    16
}

/// The item at an index.
pub(crate) fn item_at(pairs: &Pairs, height: u32, node: u32, index: u32) -> u32
    requires height { height ≤ 16 }
    requires within { index < 2 ^ height }
    ensures { slice_get (items pairs.now height node) index ≡ Some result }
{
    if height == 0 {
        return node;
    }
    let half = size_of(height - 1);
    let halves = pairs.get(node);
    if index < half {
        return item_at(pairs, height - 1, halves.0, index);
    }
    item_at(pairs, height - 1, halves.1, index - half)
}

/// The least index from `from` on at which two trees differ. Halves that are the same node are passed over.
pub(crate) fn difference_in(
    pairs: &Pairs,
    height: u32,
    first: u32,
    second: u32,
    from: u32,
) -> Option<u32>
    requires { height ≤ 16 }
    ensures found { IsDifference (items pairs.now height first) (items pairs.now height second) from result }
    ensures within { IfSome result (λ index. index < 2 ^ height) }
{
    if first == second {
        return None;
    }
    if from >= size_of(height) {
        return None;
    }
    if height == 0 {
        return Some(0);
    }
    let half = size_of(height - 1);
    let halves = pairs.get(first);
    let others = pairs.get(second);
    if let Some(index) = difference_in(pairs, height - 1, halves.0, others.0, from) {
        return Some(index);
    }
    let behind = from.saturating_sub(half);
    match difference_in(pairs, height - 1, halves.1, others.1, behind) {
        Some(index) => Some(index + half),
        None => None,
    }
}

/// Remembers a pair of trees of which a test passed at the indices below the width, if they have no others.
fn remember(known: &mut Known, pair: TreePair, width: u32)
    requires { pair.height ≤ 16 }
    ensures { IsGrown known.old pair (2 ^ pair.height ≤ width) known.new }
{
    if size_of(pair.height) <= width {
        known.insert(pair);
    }
}

/// Whether a test passes on the items at each index below the width at which two trees differ. Halves that are the same node are passed
/// over, and so are second halves that are the same nodes as the first, and trees that are known to pass. Trees all of whose items pass
/// are known from then on.
#[tactic(auto, using(crate::proofs::TreeLemmas::left_tree, crate::proofs::TreeLemmas::right_tree))]
pub(crate) fn passes_in<F: Fn(Difference) -> bool>(
    pairs: &Pairs,
    known: &mut Known,
    height: u32,
    first: u32,
    second: u32,
    width: u32,
    test: &F,
) -> bool
    requires height { height ≤ 16 }
    requires trees { IsTree pairs.now height first × IsTree pairs.now height second }
    requires callable { F.IsAlwaysCallable test.now }
    requires known { AllPass (F.post test.now) pairs.now known.old }
    ensures answered { AreAnswered (F.post test.now) width (items pairs.now height first) (items pairs.now height second) result }
    ensures known { AllPass (F.post test.now) pairs.now known.new }
{
    if first == second || width == 0 {
        return true;
    }
    if height == 0 {
        return test(Difference { first, second });
    }
    let pair = TreePair {
        height,
        first,
        second,
    };
    if known.contains(pair) {
        return true;
    }
    let halves = pairs.get(first);
    let others = pairs.get(second);
    if !passes_in(pairs, known, height - 1, halves.0, others.0, width, test) {
        return false;
    }
    if halves.0 == halves.1 && others.0 == others.1 {
        remember(known, pair, width);
        return true;
    }
    let behind = width.saturating_sub(size_of(height - 1));
    if !passes_in(pairs, known, height - 1, halves.1, others.1, behind, test) {
        return false;
    }
    remember(known, pair, width);
    true
}

/// The least index from `from` on that holds the item. Trees that can't hold it are passed over, and where both halves are the same
/// node, so is the second.
pub(crate) fn position_in(
    pairs: &Pairs,
    residues: &Residues,
    height: u32,
    node: u32,
    item: u32,
    from: u32,
) -> Option<u32>
    requires height { height ≤ 16 }
    requires marked { HasResidues pairs.now residues.now height node }
    ensures found { IsPosition (items pairs.now height node) item from result }
    ensures within { IfSome result (λ index. index < 2 ^ height) }
{
    if from >= size_of(height) {
        return None;
    }
    if height == 0 {
        return if node == item { Some(0) } else { None };
    }
    if !may_hold(residues.at(node), item) {
        return None;
    }
    let half = size_of(height - 1);
    let halves = pairs.get(node);
    if let Some(index) = position_in(pairs, residues, height - 1, halves.0, item, from) {
        return Some(index);
    }
    if from == 0 && halves.0 == halves.1 {
        return None;
    }
    let behind = from.saturating_sub(half);
    match position_in(pairs, residues, height - 1, halves.1, item, behind) {
        Some(index) => Some(index + half),
        None => None,
    }
}

/// The first item, and the rest where there is none.
fn first_or(given: &[u32], rest: u32) -> u32
    requires { length given.now ≤ 1 }
    ensures { result ∷ [] ≡ given.now ++ replicate (1 - length given.now) rest }
{
    if given.is_empty() { rest } else { given[0] }
}

/// The residues of the items of a tree, and perhaps others.
fn residues_of(residues: &Residues, height: u32, node: u32) -> u64
    ensures { (ps : List (ℕ × ℕ)) → HasResidues ps residues.now height node → AreAmong ps height node result }
{
    if height == 0 {
        residue_of(node)
    } else {
        residues.at(node)
    }
}

/// The residues of the items of two trees, and perhaps others.
fn residues_of_both(residues: &Residues, height: u32, halves: (u32, u32)) -> u64
    ensures { (ps : List (ℕ × ℕ)) → HasResidues ps residues.now height halves.0 × HasResidues ps residues.now height halves.1
        → AreAmong ps height halves.0 result × AreAmong ps height halves.1 result }
{
    let first = residues_of(residues, height, halves.0);
    let second = residues_of(residues, height, halves.1);
    both(first, second)
}

/// The tree of these halves, of this height, the residues of which are known from then on.
fn insert_known(
    pairs: &mut Pairs,
    residues: &mut Residues,
    height: u32,
    halves: (u32, u32),
) -> Result<u32, NoMemory>
    requires height { 0 < height }
    requires trees { IsTree pairs.old (height - 1) halves.0 × IsTree pairs.old (height - 1) halves.1 }
    requires marked { HasResidues pairs.old residues.old (height - 1) halves.0 × HasResidues pairs.old residues.old (height - 1) halves.1 }
    ensures more { Extends pairs.old pairs.new }
    ensures grown { HaveMore residues.old residues.new }
    ensures node { IfOk result (IsNode pairs.new halves) }
    ensures marked { IfOk result (HasResidues pairs.new residues.new height) }
{
    let found = residues_of_both(residues, height - 1, halves);
    let node = pairs.insert(halves)?;
    residues.add(node, found)?;
    Ok(node)
}

/// A tree of these halves, of this height, and one of twice the rest.
fn join(
    pairs: &mut Pairs,
    residues: &mut Residues,
    height: u32,
    halves: (u32, u32),
    rest: u32,
) -> Result<Filled, NoMemory>
    requires height { 0 < height }
    requires trees { IsTree pairs.old (height - 1) halves.0 × IsTree pairs.old (height - 1) halves.1 × IsTree pairs.old (height - 1) rest }
    requires marked { HasResidues pairs.old residues.old (height - 1) halves.0 × HasResidues pairs.old residues.old (height - 1) halves.1
        × HasResidues pairs.old residues.old (height - 1) rest }
    ensures more { Extends pairs.old pairs.new }
    ensures grown { HaveMore residues.old residues.new }
    ensures nodes { IfOk result (λ made. IsNode pairs.new halves made.node × IsNode pairs.new (rest, rest) made.rest) }
    ensures marked { IfOk result (λ made. HasResidues pairs.new residues.new height made.node × HasResidues pairs.new residues.new height made.rest) }
{
    let node = insert_known(pairs, residues, height, halves)?;
    let rest = insert_known(pairs, residues, height, (rest, rest))?;
    Ok(Filled { node, rest })
}

/// The tree of these items, behind which the rest stands.
pub(crate) fn tree_of(
    pairs: &mut Pairs,
    residues: &mut Residues,
    height: u32,
    given: &[u32],
    rest: u32,
) -> Result<Filled, NoMemory>
    requires height { height ≤ 16 }
    requires room { length given.now ≤ 2 ^ height }
    ensures more { Extends pairs.old pairs.new }
    ensures grown { HaveMore residues.old residues.new }
    ensures marked { IfOk result (λ made. HasResidues pairs.new residues.new height made.node × HasResidues pairs.new residues.new height made.rest) }
    ensures filled { IfOk result (λ made. IsFilled pairs.new height given.now rest made.node made.rest) }
{
    if height == 0 {
        let node = first_or(given, rest);
        return Ok(Filled { node, rest });
    }
    let half = size_of(height - 1) as usize;
    if given.len() <= half {
        let left = tree_of(pairs, residues, height - 1, given, rest)?;
        return join(pairs, residues, height, (left.node, left.rest), left.rest);
    }
    let (front, back) = given.split_at(half);
    let left = tree_of(pairs, residues, height - 1, front, rest)?;
    let right = tree_of(pairs, residues, height - 1, back, rest)?;
    join(pairs, residues, height, (left.node, right.node), left.rest)
}

/// A tree with another item at an index.
pub(crate) fn tree_with(
    pairs: &mut Pairs,
    residues: &mut Residues,
    height: u32,
    node: u32,
    index: u32,
    item: u32,
) -> Result<u32, NoMemory>
    requires height { height ≤ 16 }
    requires within { index < 2 ^ height }
    requires tree { IsTree pairs.old height node }
    requires marked { HasResidues pairs.old residues.old height node }
    ensures more { Extends pairs.old pairs.new }
    ensures grown { HaveMore residues.old residues.new }
    ensures marked { IfOk result (HasResidues pairs.new residues.new height) }
    ensures made { IfOk result (λ made. IsTreeOf pairs.new height made (set (items pairs.old height node) index item)) }
{
    if height == 0 {
        return Ok(item);
    }
    let half = size_of(height - 1);
    let halves = pairs.get(node);
    if index < half {
        let left = tree_with(pairs, residues, height - 1, halves.0, index, item)?;
        return insert_known(pairs, residues, height, (left, halves.1));
    }
    let right = tree_with(pairs, residues, height - 1, halves.1, index - half, item)?;
    insert_known(pairs, residues, height, (halves.0, right))
}
