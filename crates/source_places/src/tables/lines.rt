//! The lines of the places of a code, by all of its LineNumberTables.
ghost use Rattle.std.specs.Prelude.{◌≡◌};
ghost use Rattle.source_places.specs.Tables.Lines.{line_of};

use crate::tables::starts::{entries, nearest_in};
use class_pool::kind::is_named;
use class_pool::{Code, Pool};

/// The line of the instruction at this place of a code: that of the start before it, or there, that is nearest by all
/// LineNumberTables, whatever their order. Of starts at one place the last one counts. `None` where there is none.
pub fn line_at(pool: &Pool, code: &Code, place: u16) -> Option<u16>
    ensures { result ≡ line_of pool.now code.now place }
{
    let mut found = None;
    for (name, bytes) in code.attributes.as_slice() {
        if is_named(pool, *name, b"LineNumberTable") {
            found = nearest_in(place, found, entries(bytes.as_slice()));
        }
    }
    found.map(|start| start.line)
}
