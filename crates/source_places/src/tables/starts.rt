//! Where lines start, by one LineNumberTable.
ghost use Rattle.std.specs.Prelude.{◌≡◌, ◌++◌, List, [], ◌∷◌};
ghost use Rattle.source_places.specs.Tables.Lines.{starts_in, table_starts, nearest};

use crate::tables::numbers::number;

/// From the instruction at this place on, the code is of this line.
#[derive(Clone, Copy)]
pub struct LineStart {
    /// A place in the code.
    pub start: u16,
    pub line: u16,
}

/// The bytes of the starts of a table, where it is of the form of one, and otherwise none.
pub(crate) fn entries(table: &[u8]) -> &[u8]
    ensures { starts_in result.now ≡ table_starts table.now }
{
    match table {
        [high, low, rest @ ..] => {
            if rest.len() == 4 * usize::from(number(*high, *low)) {
                rest
            } else {
                &[]
            }
        }
        _ => &[],
    }
}

/// The nearer one, where the second stands behind the first in the tables.
fn nearer(place: u16, before: Option<LineStart>, next: LineStart) -> Option<LineStart>
    ensures { (es : List LineStart) → before ≡ nearest place es → result ≡ nearest place (es ++ next ∷ []) }
{
    if place < next.start {
        return before;
    }
    match before {
        None => Some(next),
        Some(found) => {
            if next.start < found.start {
                Some(found)
            } else {
                Some(next)
            }
        }
    }
}

/// The nearest of these starts and of those before them, of which the nearest is told.
pub(crate) fn nearest_in(place: u16, before: Option<LineStart>, entries: &[u8]) -> Option<LineStart>
    ensures { (es : List LineStart) → before ≡ nearest place es → result ≡ nearest place (es ++ starts_in entries.now) }
{
    let mut found = before;
    let mut left = entries;
    while let [a, b, c, d, rest @ ..] = left {
        let next = LineStart {
            start: number(*a, *b),
            line: number(*c, *d),
        };
        found = nearer(place, found, next);
        left = rest;
    }
    found
}
