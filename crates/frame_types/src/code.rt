//! What instructions begin at places of a code (JVM Specification SE 8, 4.9.1).
ghost use Rattle.std.specs.Prelude.{◌≡◌, map, nat_le};
ghost use Rattle.std.specs.List.{list_all};
ghost use Rattle.std.specs.List.Sorted.{IsStrictlyIncreasing};
ghost use Rattle.lists.specs.Numbers.{is_among};
ghost use Rattle.opcodes.specs.Start.{starts_of};
ghost use Rattle.frame_types.specs.Types.{stack_words, is_start, is_new, names_new};
ghost use Rattle.frame_types.specs.Extents.{shape, fit};

use crate::steps::EntryType;
use opcodes::laws::starts_follow_one_another;
use opcodes::mnemonics::NEW;

/// A code with the places at which its instructions begin.
#[derive(Clone, Copy)]
pub(crate) struct Placed<'a> {
    pub code: &'a [u8],
    pub starts: &'a [u32],
}

/// Whether the number is among these, which rise.
fn is_among(numbers: &[u32], number: u32) -> bool
    requires { IsStrictlyIncreasing numbers.now }
    ensures { result ≡ is_among numbers.now number }
{
    numbers.binary_search(&number).is_ok()
}

/// Whether an instruction begins at the place.
pub(crate) fn is_start(placed: Placed<'_>, place: u32) -> bool
    requires { placed.starts.now ≡ starts_of placed.code.now }
    ensures { result ≡ is_start placed.entry.code.now place }
{
    starts_follow_one_another();
    is_among(placed.starts, place)
}

/// Whether it is a `new`.
fn is_new(placed: Placed<'_>, place: u32) -> bool
    requires { placed.starts.now ≡ starts_of placed.code.now }
    ensures { result ≡ is_new placed.entry.code.now place }
{
    is_start(placed, place)
        && (place as usize) < placed.code.len()
        && placed.code[place as usize] == NEW
}

/// Whether a type that isn't initialised was made by a `new`.
fn names_new(placed: Placed<'_>, t: &EntryType) -> bool
    requires { placed.starts.now ≡ starts_of placed.code.now }
    ensures { result ≡ names_new placed.entry.code.now (shape t.now) }
{
    match t {
        EntryType::Uninitialized(place) => is_new(placed, *place),
        _ => true,
    }
}

/// Whether each of them that isn't initialised was.
fn all_name_new(placed: Placed<'_>, types: &[EntryType]) -> bool
    requires { placed.starts.now ≡ starts_of placed.code.now }
    ensures { result ≡ list_all (λ t. names_new placed.entry.code.now (shape t)) types.now }
{
    types.iter().all(|t| names_new(placed, t))
}

/// Whether values of these types take at most so many words.
fn have_room(types: &[EntryType], most: u16) -> bool
    ensures { result ≡ nat_le (stack_words (map shape types.now)) most }
{
    let mut left = most;
    for t in types {
        if t.words() > left {
            return false;
        }
        left -= t.words();
    }
    true
}

/// Whether values of these types take at most so many words, and each that isn't initialised was made by a `new`.
pub(crate) fn fit(placed: Placed<'_>, most: u16, types: &[EntryType]) -> bool
    requires { placed.starts.now ≡ starts_of placed.code.now }
    ensures { result ≡ fit placed.entry.code.now most (map shape types.now) }
{
    have_room(types, most) && all_name_new(placed, types)
}
