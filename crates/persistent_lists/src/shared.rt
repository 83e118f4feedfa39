//! Lists that share what they have in common, by number.

ghost use Rattle.std.specs.Prelude.{◌≡◌, ℕ, ◌<◌, ◌≤◌, ◌^◌, [], ◌∷◌, ◌++◌, length, slice_get, None, IfOk, IfSome, IsSome, OnOk, OnErr};
ghost use Rattle.persistent_lists.specs.Tables.{with_list, with_known, filled, list_at, changed_list, IsDifference, IsPosition};
ghost use Rattle.persistent_lists.specs.Answers.{ArePassed, AreKnown};
ghost use Rattle.persistent_lists.specs.Trees.{below};

use crate::known::Known;
use crate::pairs::Pairs;
use crate::residues::Residues;
use crate::trees::{
    Difference, difference_in, height_of, item_at, passes_in, position_in, tree_of, tree_with,
};
use base::NoMemory;
use std::alloc::Global;
use std::marker::Model;

/// The most lists whose numbers, and the number of them, fit 32 bits.
const MOST_LISTS: usize = 4_294_967_295;

/// Lists of numbers, each at its number, in the order in which they were made. Contracts see them, how long each is, and the number
/// that stands behind the items that were given for one (`ListTable`).
///
/// A list costs the nodes of its tree that no earlier list has. Reading an item, and changing one, takes a step for each doubling of
/// the length, and so does finding where two lists differ next, and asking a test about two lists each of which holds one item alone.
/// Finding an item may take a step for each node of the list: trees none of whose items leaves the same remainder by 64 are passed over.
#[derive(Drop)]
pub struct SharedLists {
    /// The nodes above the items, by their two halves.
    pairs: Pairs,
    /// For each pair the residues of the items of its trees.
    residues: Residues,
    /// The node of each list.
    roots: Vec<u32>,
    /// The pairs of trees that needn't be walked once more.
    known: Known,
    /// How many nodes stand above each item. A tree has 2 to this power items, of which those from the length on don't count.
    height: u32,
    width: u32,
    rest: u32,
}

impl Model for SharedLists {
    ghost use Rattle.std.specs.Prelude.{ℕ, ◌<◌, ◌≤◌, ◌^◌, length, All};
    ghost use Rattle.persistent_lists.specs.Tables.{ListTable};
    ghost use Rattle.persistent_lists.specs.Trees.{lists_of, IsTree};
    ghost use Rattle.persistent_lists.specs.Known.{all_items, AreTrees};
    ghost use Rattle.persistent_lists.specs.Residues.{HasResidues};

    ghost Value = { ListTable };

    ghost view = { λ a. record { width = a.width; rest = a.rest; lists = lists_of a.width a.height a.pairs a.roots.items; known = all_items a.pairs a.known } };

    ghost invariant = { λ a. (a.width ≤ 2 ^ a.height) × (a.height ≤ 16) × (length a.roots.items < 2 ^ 32) × All (IsTree a.pairs a.height) a.roots.items
        × All (AreTrees a.pairs) a.known × All (HasResidues a.pairs a.residues a.height) a.roots.items };
}

/// Adds a node to those of the lists.
fn add_root(roots: &mut Vec<u32>, root: u32) -> Result<u32, NoMemory>
    requires { length roots.old.items < 2 ^ 32 }
    ensures root { OnOk result (roots.new.items ≡ roots.old.items ++ root ∷ []) }
    ensures number { IfOk result (λ number. number ≡ length roots.old.items) }
    ensures unchanged { OnErr result (roots.new.items ≡ roots.old.items) }
    ensures fits { length roots.new.items < 2 ^ 32 }
{
    let number = roots.len();
    if number >= MOST_LISTS {
        return Err(NoMemory);
    }
    roots.push(root)?;
    Ok(number as u32)
}

/// The node of a list, if there is a list of this number.
fn root_at(roots: &[u32], number: u32) -> Option<u32>
    ensures { result ≡ slice_get roots.now number }
{
    match roots.get(number as usize) {
        Some(root) => Some(*root),
        None => None,
    }
}

/// The index, if it is below the width.
fn below(width: u32, index: Option<u32>) -> Option<u32>
    ensures index { result ≡ below width index }
    ensures within { IfSome result (λ k. k < width) }
{
    match index {
        Some(index) if index < width => Some(index),
        _ => None,
    }
}

impl SharedLists {
    /// No list yet, of so many items each.
    pub fn new(alloc: Global, width: u32, rest: u32) -> Self
        requires { width < 2 ^ 16 }
        ensures { result ≡ record { width = width; rest = rest; lists = []; known = [] } }
    {
        SharedLists {
            pairs: Pairs::new(alloc),
            residues: Residues::new(alloc),
            roots: Vec::new(alloc),
            known: Known::new(alloc),
            height: height_of(width),
            width,
            rest,
        }
    }

    /// How long each list is: none has an item from this index on.
    pub fn width(&self) -> u32
        ensures width { result ≡ self.now.width }
        ensures beyond { (n i : ℕ) → result ≤ i → slice_get (list_at self.now n) i ≡ None }
    {
        self.width
    }

    /// Adds the list of these items, behind which the rest stands, and answers its number. Where memory is wanting no list is added.
    pub fn push(&mut self, items: &[u32]) -> Result<u32, NoMemory>
        requires { length items.now ≤ self.old.width }
        ensures list { OnOk result (self.new ≡ with_list self.old (filled self.old items.now)) }
        ensures number { IfOk result (λ number. number ≡ length self.old.lists) }
        ensures unchanged { OnErr result (self.new ≡ self.old) }
    {
        let tree = tree_of(
            &mut self.pairs,
            &mut self.residues,
            self.height,
            items,
            self.rest,
        )?;
        add_root(&mut self.roots, tree.node)
    }

    /// Adds a list that is this one with another item at an index, and answers its number. Where the list has no such index, it is added as
    /// it is; where there is no such list, that of the rest alone is added. Where memory is wanting no list is added.
    pub fn push_with(&mut self, list: u32, index: u32, item: u32) -> Result<u32, NoMemory>
        ensures list { OnOk result (self.new ≡ with_list self.old (changed_list self.old list index item)) }
        ensures number { IfOk result (λ number. number ≡ length self.old.lists) }
        ensures unchanged { OnErr result (self.new ≡ self.old) }
    {
        let root = match root_at(&self.roots, list) {
            Some(root) => root,
            None => return self.push(&[]),
        };
        if index >= self.width {
            return add_root(&mut self.roots, root);
        }
        let root = tree_with(
            &mut self.pairs,
            &mut self.residues,
            self.height,
            root,
            index,
            item,
        )?;
        add_root(&mut self.roots, root)
    }

    /// The item of a list at an index, if it has one.
    pub fn item(&self, list: u32, index: u32) -> Option<u32>
        ensures { result ≡ slice_get (list_at self.now list) index }
    {
        let root = *self.roots.get(list as usize)?;
        if index >= self.width {
            return None;
        }
        Some(item_at(&self.pairs, self.height, root, index))
    }

    /// The least index from `from` on at which two lists differ. A list that isn't there is empty.
    pub fn difference(&self, first: u32, second: u32, from: u32) -> Option<u32>
        ensures found { IsDifference (list_at self.now first) (list_at self.now second) from result }
        ensures within { IfSome result (λ index. index < self.now.width) }
    {
        let roots = (root_at(&self.roots, first), root_at(&self.roots, second));
        match roots {
            (Some(first), Some(second)) => below(
                self.width,
                difference_in(&self.pairs, self.height, first, second, from),
            ),
            (Some(_), None) => below(self.width, Some(from)),
            (None, Some(_)) => below(self.width, Some(from)),
            (None, None) => None,
        }
    }

    /// Whether a test passes on the items at each index at which two lists differ; none where one of the lists isn't there. It is asked on no
    /// other items, and on none of pairs of trees that are known to pass, to which those that pass now are added.
    pub fn passes_where_unlike<F: Fn(Difference) -> bool>(
        &mut self,
        first: u32,
        second: u32,
        test: F,
    ) -> Option<bool>
        requires callable { F.IsAlwaysCallable test }
        requires known { AreKnown (F.post test) self.old }
        ensures passed { IfSome result (λ passes. ArePassed (F.post test) (list_at self.old first) (list_at self.old second) passes) }
        ensures there { first < length self.old.lists → second < length self.old.lists → IsSome result }
        ensures lists { self.new ≡ with_known self.old self.new.known }
        ensures known { AreKnown (F.post test) self.new }
    {
        match (root_at(&self.roots, first), root_at(&self.roots, second)) {
            (Some(first), Some(second)) => Some(passes_in(
                &self.pairs,
                &mut self.known,
                self.height,
                first,
                second,
                self.width,
                &test,
            )),
            (Some(_), None) => None,
            (None, _) => None,
        }
    }

    /// The least index from `from` on at which a list holds the item. A list that isn't there is empty.
    pub fn position(&self, list: u32, item: u32, from: u32) -> Option<u32>
        ensures found { IsPosition (list_at self.now list) item from result }
        ensures within { IfSome result (λ index. index < self.now.width) }
    {
        match self.roots.get(list as usize) {
            Some(root) => below(
                self.width,
                position_in(&self.pairs, &self.residues, self.height, *root, item, from),
            ),
            None => None,
        }
    }
}
