//! What the rules on frames ask of local variables, known behind each of their types: so an entry of a StackMapTable costs
//! what it changes, and never all local variables.
ghost use Rattle.std.specs.Prelude.{◌≡◌, ◌++◌, ◌-◌, ◌||◌, OnOk, IfOk, map, nat_le, if◌then◌else◌, Some, None};
ghost use Rattle.std.specs.Option.{option_map};
ghost use Rattle.frame_types.specs.Extents.{shape, whole_extent, extents_behind, last_extent, first_words, first_extents};

use crate::steps::{EntryType, FirstLocal};
use base::NoMemory;
use std::alloc::Global;

/// What is known behind a type of local variables.
#[derive(Clone, Copy)]
pub(crate) struct Extent {
    /// How many of the method's local variables are left.
    pub left: u16,
    /// Whether one so far is that of an uninitialised `this`.
    pub this: bool,
}

impl Extent {
    /// Behind no type, where the method has so many local variables.
    pub fn whole(most: u16) -> Extent
        ensures { result ≡ whole_extent most }
    {
        Extent {
            left: most,
            this: false,
        }
    }

    /// Behind one more that takes so many words.
    fn behind(self, words: u16, this: bool) -> Extent
        ensures left { result.left ≡ self.left - words }
        ensures this { result.this ≡ (self.this || this) }
    {
        Extent {
            left: self.left.saturating_sub(words),
            this: self.this || this,
        }
    }
}

/// The extent behind all of them, where the method has so many local variables.
pub(crate) fn last_of(most: u16, extents: &[Extent]) -> Extent
    ensures { result ≡ last_extent (whole_extent most) extents.now }
{
    match extents.last() {
        Some(last) => *last,
        None => Extent::whole(most),
    }
}

/// Puts behind the extents those of more types, which follow this one.
pub(crate) fn push_all(
    extents: &mut Vec<Extent>,
    before: Extent,
    types: &[EntryType],
) -> Result<(), NoMemory>
    ensures { OnOk result (extents.new.items ≡ extents.old.items ++ extents_behind before (map shape types.now)) }
{
    let mut last = before;
    for t in types {
        last = last.behind(t.words(), t.is_this());
        extents.push(last)?;
    }
    Ok(())
}

/// The extents of the local variables with which a method begins, if it has so many.
pub(crate) fn first_extents(
    alloc: Global,
    most: u16,
    first: &[FirstLocal],
) -> Result<Option<Vec<Extent>>, NoMemory>
    ensures { IfOk result (λ found. option_map (λ x. x.items) found ≡
        (if nat_le (first_words first.now) most then Some (first_extents (whole_extent most) first.now) else None)) }
{
    let mut extents = Vec::new(alloc);
    let mut last = Extent::whole(most);
    for t in first {
        if t.words > last.left {
            return Ok(None);
        }
        last = last.behind(t.words, t.this);
        extents.push(last)?;
    }
    Ok(Some(extents))
}
