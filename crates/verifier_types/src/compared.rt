//! Local variables of two frames of types side by side (JVM Specification SE 8, 4.10.1.4).
ghost use Rattle.std.specs.Prelude.{◌≡◌, ◌↔◌, IsTrue, slice_get};
ghost use Rattle.program_tables.specs.Resolved.{resolved};
ghost use Rattle.bytecode_typing.specs.Assignable.{is_assignable};
ghost use Rattle.bytecode_typing.specs.Tests.{all_two};
ghost use Rattle.verifier_types.specs.Locals.{lists_seen, locals_seen};
ghost use Rattle.verifier_types.specs.Compared.{stands};

use crate::local_lists::LocalLists;
use crate::locals::Locals;

/// Whether a local variable of the first may stand for that of the same index of the second.
fn stands_at(lists: &LocalLists<'_>, from: Locals, to: Locals, index: u32) -> bool
    ensures { let ls = lists_seen lists.now in result ≡ stands (resolved lists.now.classes) (slice_get (locals_seen ls from) index)
        (slice_get (locals_seen ls to) index) }
{
    match (from.local(lists, index), to.local(lists, index)) {
        (Some(from), Some(to)) => lists.is_assignable(from, to),
        (None, None) => true,
        (Some(_), None) => false,
        (None, Some(_)) => false,
    }
}

/// Whether local variables of the first may stand for those of the second, one index after another.
fn stand_in_turn(lists: &LocalLists<'_>, from: Locals, to: Locals) -> bool
    ensures { let ls = lists_seen lists.now in result ≡ all_two (is_assignable (resolved lists.now.classes)) (locals_seen ls from) (locals_seen ls to) }
{
    for index in 0..lists.max_locals() {
        if !stands_at(lists, from, to, index) {
            return false;
        }
    }
    true
}

/// Whether local variables of the first types may stand for as many of the second.
pub(crate) fn are_assignable_locals(lists: &mut LocalLists<'_>, from: Locals, to: Locals) -> bool
    ensures answer { let ls = lists_seen lists.old in result ≡ all_two (is_assignable (resolved lists.old.classes)) (locals_seen ls from) (locals_seen ls to) }
    ensures kept { lists.new ≡ lists.old }
{
    match lists.stand_apart(from.list, to.list) {
        Some(answer) => answer,
        None => stand_in_turn(lists, from, to),
    }
}

/// Whether local variables are of the same types as others.
pub fn has_same_locals(lists: &LocalLists<'_>, first: &Locals, second: &Locals) -> bool
    ensures { let ls = lists_seen lists.now in IsTrue result ↔ (locals_seen ls first.now ≡ locals_seen ls second.now) }
{
    lists.are_same(first.list, second.list)
}
