//! The superclass and the superinterfaces that a class names (JVM Specification SE 8, 5.3.5).
ghost use Rattle.std.specs.Prelude.{◌≡◌, ◌<◌, length, Some, slice_get};
ghost use Rattle.std.specs.List.{flat_map};
ghost use Rattle.lists.specs.Lists.{first};
ghost use Rattle.unresolved_names.specs.Causes.{refused_class, unresolved_supertypes};

use crate::caller::Namer;
use crate::names::why_class;
use class_pool::ClassFile;
use program_tables::{TextTypes, Why};

/// The Class entry, if its class isn't resolved.
#[tactic(auto, unfolding(crate::specs::Causes::refused_class, crate::specs::Words::class_reason))]
pub(crate) fn refused_class(namer: &Namer<'_>, index: u16) -> Option<(u32, Why)>
    ensures { result ≡ first (refused_class namer.now.texts.now namer.now.number namer.now.class.now index) }
{
    match why_class(namer, index) {
        Some(why) => Some((u32::from(index), why)),
        None => None,
    }
}

/// The first of the Class entries whose class isn't resolved.
fn first_of_entries(namer: &Namer<'_>, entries: &[u16]) -> Option<(u32, Why)>
    ensures { result ≡ first (flat_map (refused_class namer.now.texts.now namer.now.number namer.now.class.now) entries.now) }
{
    for index in entries {
        if let Some(found) = refused_class(namer, *index) {
            return Some(found);
        }
    }
    None
}

/// The first of the superclass and the superinterfaces of the class that isn't there or may not be named, by its Class entry.
/// The class is that of the number `caller`.
#[tactic(auto, unfolding(crate::specs::Causes::unresolved_supertypes))]
pub fn first_unresolved_supertype<'a>(
    texts: &'a TextTypes<'a>,
    caller: u32,
    class: &'a ClassFile,
) -> Option<(u32, Why)>
    requires caller { caller < length texts.now }
    requires own { slice_get texts.now caller ≡ Some class.now }
    ensures { result ≡ first (unresolved_supertypes texts.now caller class.now) }
{
    let namer = Namer {
        texts,
        number: caller,
        class,
    };
    if class.super_class != 0 {
        if let Some(found) = refused_class(&namer, class.super_class) {
            return Some(found);
        }
    }
    first_of_entries(&namer, class.interfaces.as_slice())
}
