//! One abstract method: which classes leave it without code.

ghost use Rattle.std.specs.Prelude.{◌≡◌, ℕ, ◌<◌, ◌&&◌, ◌||◌, not, false, length, map, slice_index_or, IsTrue, IfOk, OnOk};
ghost use Rattle.std.specs.Option.{option_map_or};
ghost use Rattle.class_lookup.specs.Hierarchy.{is_among};
ghost use Rattle.class_lookup.specs.Lookup.{method_at};
ghost use Rattle.class_lookup.specs.Parts.{has_code, is_abstract};
ghost use Rattle.class_lookup.specs.Selection.{is_method_with, select};
ghost use Rattle.program_tables.specs.Unresolved.{is_implemented};
ghost use Rattle.class_checks.specs.Marks.{AreKept};

use base::NoMemory;
use class_hierarchy::{Hierarchy, Place};
use class_lookup::parts::has_flags;
use class_lookup::{Classes, method_at};
use class_rules::flags::ACC_ABSTRACT;
use std::alloc::Global;

/// Whether there is such a method, and it is abstract.
pub(crate) fn is_abstract(classes: &Classes, place: Place) -> bool
    ensures { result ≡ is_method_with is_abstract classes.now place }
{
    match method_at(classes, place) {
        Some(method) => has_flags(method.flags, ACC_ABSTRACT),
        None => false,
    }
}

/// Whether a method was selected, and it has code.
fn has_code(classes: &Classes, selected: Option<Place>) -> bool
    ensures { result ≡ option_map_or (is_method_with has_code classes.now) selected false }
{
    match selected {
        Some(place) => match method_at(classes, place) {
            Some(method) => method.code().is_some(),
            None => false,
        },
        None => false,
    }
}

/// Those of these classes that aren't marked.
fn unmarked(alloc: Global, lower: &[u32], marks: &[bool]) -> Result<Vec<u32>, NoMemory>
    requires { (c : ℕ) → IsTrue (is_among lower.now c) → c < length marks.now }
    ensures { IfOk result (λ found. (c : ℕ) → is_among found.items c ≡ (is_among lower.now c && slice_index_or marks.now c false)) }
{
    let mut found = Vec::new(alloc);
    for class in lower {
        if marks[*class as usize] {
            found.push(*class)?;
        }
    }
    Ok(found)
}

/// Takes the mark from those of these classes for which nothing with code is selected.
fn keep_marks(
    classes: &Classes,
    lower: &[u32],
    selected: &[Option<Place>],
    method: Place,
    marks: &mut Vec<bool>,
)
    requires below { (c : ℕ) → IsTrue (is_among lower.now c) → c < length marks.old.items }
    requires selected { selected.now ≡ map (λ c. select classes.now c method) lower.now }
    ensures { AreKept (λ c. not (is_among lower.now c) || is_implemented classes.now c method) marks.old.items marks.new.items }
{
    // The contract alone speaks of it.
    let _ = method;
    for (i, class) in lower.iter().enumerate() {
        if !has_code(classes, selected[i]) {
            marks[*class as usize] = false;
        }
    }
}

/// Takes the mark from those of these classes that leave the method without code, if it is abstract.
pub(crate) fn mark_method(
    alloc: Global,
    classes: &Hierarchy,
    lower: &[u32],
    method: Place,
    marks: &mut Vec<bool>,
) -> Result<(), NoMemory>
    requires below { (c : ℕ) → IsTrue (is_among lower.now c) → c < length classes.now }
    requires long { length marks.old.items ≡ length classes.now }
    ensures { OnOk result (AreKept (λ c. not (is_among lower.now c) ||
        (not (is_method_with is_abstract classes.now method) || is_implemented classes.now c method)) marks.old.items marks.new.items) }
{
    if !is_abstract(classes.classes(), method) {
        return Ok(());
    }
    let left = unmarked(alloc, lower, marks)?;
    let selected = classes.select_each(alloc, &left, method)?;
    keep_marks(classes.classes(), &left, &selected, method, marks);
    Ok(())
}
