//! The loops that count, gone through by method and place.
ghost use Rattle.std.specs.Prelude.{◌≡◌, ◌↔◌, IsTrue};
ghost use Rattle.loop_nest.specs.Digraph.{IsBefore};
ghost use Rattle.source_headers.specs.Found.{place_of, AreRising, StartsFrom, IsLeftFrom};
ghost use Rattle.source_headers.specs.Headers.{found_at};

use loop_rules::FoundLoop;

/// Whether the loop is before the place of the method.
fn is_before(one: FoundLoop, method: u32, place: u32) -> bool
    ensures { IsTrue result ↔ IsBefore (place_of one) (method, place) }
{
    one.method < method || (one.method == method && one.place < place)
}

/// The loops without those at the front that are before the place of the method.
pub(crate) fn from_place(found: &[FoundLoop], method: u32, place: u32) -> &[FoundLoop]
    ensures left { IsLeftFrom found.now result.now method place }
    ensures starts { StartsFrom result.now method place }
{
    let mut left = found;
    while let [first, rest @ ..] = left {
        if !is_before(*first, method, place) {
            return left;
        }
        left = rest;
    }
    left
}

/// The number that is found for the loop at the place of the method, where those before it are gone.
pub(crate) fn number_at(left: &[FoundLoop], method: u32, place: u32) -> Option<u32>
    requires rising { AreRising left.now }
    requires starts { StartsFrom left.now method place }
    ensures { result ≡ found_at left.now method place }
{
    match left {
        [first, ..] => {
            if first.method == method && first.place == place {
                Some(first.bound)
            } else {
                None
            }
        }
        [] => None,
    }
}
