//! Which classes declare a field or a method of a name and a descriptor: a row of bits for each such pair, one bit a class.

ghost use Rattle.std.specs.Prelude.{◌≡◌, ℕ, ◌<◌, ◌≤◌, true, length, slice_get, Some, is_some, IsTrue, IfOk, OnOk};
ghost use Rattle.number_sets.specs.Bits.Bits.{has};
ghost use Rattle.number_sets.specs.Bits.Table.{columns};
ghost use Rattle.class_pool.specs.declared.class.ClassFile.{ClassFile};
ghost use Rattle.class_lookup.specs.Lookup.{declared_in};
ghost use Rattle.class_lookup.specs.Parts.{Signature};
ghost use Rattle.class_lookup.specs.Symbols.{symbol};
ghost use Rattle.class_hierarchy.specs.Marks.{HasMore, AreMarked};

use base::NoMemory;
use class_lookup::Classes;
use class_pool::Member;
use number_sets::bits::BitRows;
use std::alloc::Global;

/// Marks a class in the rows of its members, of which these are some.
fn mark_members(
    marks: &mut BitRows,
    classes: &Classes,
    class: u32,
    members: &[Member],
) -> Result<(), NoMemory>
    requires class { class < length classes.now }
    requires wide { length classes.now ≤ columns marks.old }
    ensures marked { OnOk result ((k : ClassFile) (s : Signature) (a b : ℕ) → slice_get classes.now class ≡ Some k → symbol classes.now s.name ≡ Some a
        → symbol classes.now s.descriptor ≡ Some b → IsTrue (is_some (declared_in (λ c. members.now) s k)) → has marks.new (a, b) class ≡ true) }
    ensures more { OnOk result (HasMore marks.old marks.new) }
{
    for member in members {
        let name = classes.symbol(class, member.name);
        let descriptor = classes.symbol(class, member.descriptor);
        marks.set((name, descriptor), class)?;
    }
    Ok(())
}

/// Which classes declare which fields.
pub(crate) fn field_marks(alloc: Global, classes: &Classes) -> Result<BitRows, NoMemory>
    ensures { IfOk result (λ marks. AreMarked (λ k. k.fields) classes.now marks) }
{
    let mut marks = BitRows::new(alloc, classes.class_count());
    for class in 0..classes.class_count() {
        let fields = classes.class(class).fields.as_slice();
        mark_members(&mut marks, classes, class, fields)?;
    }
    Ok(marks)
}

/// Which classes declare which methods.
pub(crate) fn method_marks(alloc: Global, classes: &Classes) -> Result<BitRows, NoMemory>
    ensures { IfOk result (λ marks. AreMarked (λ k. k.methods) classes.now marks) }
{
    let mut marks = BitRows::new(alloc, classes.class_count());
    for class in 0..classes.class_count() {
        let methods = classes.class(class).methods.as_slice();
        mark_members(&mut marks, classes, class, methods)?;
    }
    Ok(marks)
}
