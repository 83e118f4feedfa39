//! Objects that are made and thrown (JVM Specification SE 8, 4.10.1.9).
ghost use Rattle.std.specs.Prelude.{◌≡◌, ℕ, IfOk, OnOk};
ghost use Rattle.bytecode_model.specs.Rows as rows;
ghost use Rattle.verifier_types.specs.Locals.{HasListsOf, lists_seen};
ghost use Rattle.verifier_types.specs.Site.{ChecksOver, Site, ChecksSite};
ghost use Rattle.bytecode_verifier.specs.Around.{StandsAt};

use crate::around::Around;
use crate::seen::is_seen_as;
use base::NoMemory;
use verifier_types::{Checked, GOES, Left, LocalLists, Rule, TypeFrame, VarType};

/// The number of the class Throwable.
pub const THROWABLE: u32 = 4;

/// `new` at this place.
#[tactic(auto, using(crate::proofs::ListedLemmas::lists_again, crate::proofs::ListedLemmas::lists_kept))]
pub fn check_new(
    lists: &mut LocalLists<'_>,
    frame: &mut TypeFrame,
    place: u32,
) -> Result<Checked, NoMemory>
    ensures lists { OnOk result (HasListsOf lists.old lists.new) }
    ensures checks { IfOk result (λ c. (s : Site) (class : ℕ) → s.place ≡ place
        → ChecksOver (lists_seen lists.old) (lists_seen lists.new) s (rows.New class) frame.old c frame.new) }
{
    if frame.operands.holds_made(place) {
        return Ok(Checked::Fails(Rule::Stack));
    }
    frame
        .locals
        .substitute(lists, VarType::Uninitialized(place), VarType::Top)?;
    frame.operands.push(VarType::Uninitialized(place))?;
    Ok(GOES)
}

/// `athrow`.
pub fn check_throw(around: &Around<'_>, frame: &mut TypeFrame) -> Checked
    ensures { (s : Site) → StandsAt around.now s → ChecksSite s rows.Throw frame.old result frame.new }
{
    let item = match frame.operands.pop() {
        Some(item) => item,
        None => return Checked::Fails(Rule::Stack),
    };
    if !is_seen_as(around, THROWABLE, item) {
        return Checked::Fails(Rule::Stack);
    }
    Checked::Leaves(Left {
        falls: false,
        access: true,
        init: item.is_initialized(),
        target: true,
    })
}
