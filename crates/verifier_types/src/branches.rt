//! Branches (JVM Specification SE 8, 4.10.1.9).
ghost use Rattle.std.specs.Prelude.{◌≡◌, ℤ, Bool, map};
ghost use Rattle.std.specs.Option.{option_map};
ghost use Rattle.bytecode_model.specs.Rows as rows;
ghost use Rattle.program_tables.specs.Resolved.{resolved};
ghost use Rattle.bytecode_typing.specs.Assignable.{flows_to};
ghost use Rattle.verifier_types.specs.Frame.{frame_seen, frame_at_seen};
ghost use Rattle.verifier_types.specs.Seen.{number_seen};
ghost use Rattle.verifier_types.specs.Locals.{lists_seen};
ghost use Rattle.verifier_types.specs.Site.{Site, ChecksIn, target_at};

use crate::checked::{Checked, Left, Rule};
use crate::frame::TypeFrame;
use crate::local_lists::LocalLists;
use crate::types::{NumberType, are_initialized};

/// Whether a frame stands at the target, and takes this one.
fn reaches(lists: &mut LocalLists<'_>, frame: &TypeFrame, target: Option<&TypeFrame>) -> bool
    ensures flows { let ls = lists_seen lists.old in result ≡ flows_to (resolved lists.old.classes) (frame_seen ls frame.now) (frame_at_seen ls target.entry) }
    ensures kept { lists.new ≡ lists.old }
{
    match target {
        Some(other) => frame.flows_to(lists, other),
        None => false,
    }
}

/// A branch on numbers, which are taken off the stack, to where the frame `target` stands.
pub fn check_branch(
    lists: &mut LocalLists<'_>,
    frame: &mut TypeFrame,
    taken: &[NumberType],
    target: Option<&TypeFrame>,
) -> Checked
    ensures checks { let ls = lists_seen lists.old in (s : Site) (test : rows.FunctionOf (map number_seen taken.now) Bool) (offset : ℤ)
        → s.program ≡ resolved lists.old.classes → target_at s (frame_seen ls frame.old) offset ≡ frame_at_seen ls target.entry → ChecksIn ls s (rows.Branch
        (map number_seen taken.now) test offset) frame.old result frame.new }
    ensures kept { lists.new ≡ lists.old }
{
    if !frame.operands.pop_numbers(taken) {
        return Checked::Fails(Rule::Stack);
    }
    Checked::Leaves(Left {
        falls: true,
        access: true,
        init: true,
        target: reaches(lists, frame, target),
    })
}

/// A branch on whether two references are the same.
pub fn check_same(
    lists: &mut LocalLists<'_>,
    frame: &mut TypeFrame,
    target: Option<&TypeFrame>,
) -> Checked
    ensures checks { let ls = lists_seen lists.old in (s : Site) (wanted : Bool) (offset : ℤ) → s.program ≡ resolved lists.old.classes
        → target_at s (frame_seen ls frame.old) offset ≡ frame_at_seen ls target.entry → ChecksIn ls s (rows.BranchSame wanted
        offset) frame.old result frame.new }
    ensures kept { lists.new ≡ lists.old }
{
    let first = match frame.operands.pop_reference() {
        Some(item) => item,
        None => return Checked::Fails(Rule::Stack),
    };
    let second = match frame.operands.pop_reference() {
        Some(item) => item,
        None => return Checked::Fails(Rule::Stack),
    };
    Checked::Leaves(Left {
        falls: true,
        access: true,
        init: are_initialized(first, second),
        target: reaches(lists, frame, target),
    })
}

/// A branch on whether a reference is null.
pub fn check_null(
    lists: &mut LocalLists<'_>,
    frame: &mut TypeFrame,
    target: Option<&TypeFrame>,
) -> Checked
    ensures checks { let ls = lists_seen lists.old in (s : Site) (wanted : Bool) (offset : ℤ) → s.program ≡ resolved lists.old.classes
        → target_at s (frame_seen ls frame.old) offset ≡ frame_at_seen ls target.entry → ChecksIn ls s (rows.BranchNull wanted
        offset) frame.old result frame.new }
    ensures kept { lists.new ≡ lists.old }
{
    let item = match frame.operands.pop_reference() {
        Some(item) => item,
        None => return Checked::Fails(Rule::Stack),
    };
    Checked::Leaves(Left {
        falls: true,
        access: true,
        init: item.is_initialized(),
        target: reaches(lists, frame, target),
    })
}

/// `goto`.
pub fn check_jump(
    lists: &mut LocalLists<'_>,
    frame: &TypeFrame,
    target: Option<&TypeFrame>,
) -> Checked
    ensures checks { let ls = lists_seen lists.old in (s : Site) (offset : ℤ) → s.program ≡ resolved lists.old.classes
        → target_at s (frame_seen ls frame.now) offset ≡ frame_at_seen ls target.entry → ChecksIn ls s (rows.Jump offset) frame.now result frame.now }
    ensures kept { lists.new ≡ lists.old }
{
    Checked::Leaves(Left {
        falls: false,
        access: true,
        init: true,
        target: reaches(lists, frame, target),
    })
}
