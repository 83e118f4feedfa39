//! Calls (JVM Specification SE 8, 4.10.1.9).
ghost use Rattle.std.specs.Prelude.{◌≡◌, ◌++◌, ◌&&◌, not, ℕ, List, map, reverse, true, Some, None, IfOk, OnOk, slice_get};
ghost use Rattle.std.specs.Option.{option_map};
ghost use Rattle.bytecode_model.specs.Program as model;
ghost use Rattle.bytecode_model.specs.Rows as rows;
ghost use Rattle.bytecode_typing.specs.Types as typing;
ghost use Rattle.bytecode_typing.specs.Types.{result_types};
ghost use Rattle.bytecode_typing.specs.Checks as checks;
ghost use Rattle.bytecode_typing.specs.Rules.{Leaves};
ghost use Rattle.program_tables.specs.Meanings.{declared_seen, HasShape};
ghost use Rattle.verifier_types.specs.Frame.{frame_seen, operands_seen};
ghost use Rattle.verifier_types.specs.Seen.{type_seen, moved_seen};
ghost use Rattle.verifier_types.specs.Locals.{HasListsOf, lists_seen};
ghost use Rattle.verifier_types.specs.Site.{ChecksOver, Site, ChecksSite, checked_seen};
ghost use Rattle.bytecode_verifier.specs.Around.{StandsAt};
ghost use Rattle.bytecode_verifier.specs.Arguments.{arguments_found};
ghost use Rattle.bytecode_verifier.specs.Calls.{init_left, super_left, virtual_left};

use crate::around::Around;
use crate::seen::{is_own_class, is_seen_as, is_seen_for, may_access, may_begin, seen, type_of};
use base::NoMemory;
use program_tables::{Declared, MethodShape};
use verifier_types::laws::what_is_taken_is_found;
use verifier_types::{Checked, Left, LocalLists, Moved, Operands, Rule, TypeFrame, VarType};

/// Whether both hold.
pub fn both(first: bool, second: bool) -> bool
    ensures { result ≡ (first && second) }
{
    first && second
}

/// Takes the arguments of a call off, the last of which is on top, and says whether all are initialised. Nothing where one of them
/// isn't there.
pub fn pop_arguments(
    around: &Around<'_>,
    operands: &mut Operands,
    parameters: &[Declared],
) -> Option<bool>
    ensures { (s : Site) → StandsAt around.now s → option_map (λ all. (all, operands_seen operands.new)) result ≡ arguments_found s
        (reverse (map declared_seen parameters.now)) (operands_seen operands.old) }
{
    let mut all = true;
    for i in 0..parameters.len() {
        let declared = parameters[parameters.len() - 1 - i];
        let item = match operands.pop() {
            Some(item) => item,
            None => return None,
        };
        if !is_seen_for(around, declared, item) {
            return None;
        }
        all = both(all, item.is_initialized());
    }
    Some(all)
}

/// Puts what a call gives on the stack.
fn push_result(operands: &mut Operands, given: Option<Declared>) -> Result<(), NoMemory>
    ensures { OnOk result (operands_seen operands.new ≡ result_types (option_map declared_seen given) ++ operands_seen operands.old) }
{
    match given {
        Some(declared) => operands.push(type_of(declared)),
        None => Ok(()),
    }
}

/// `invokestatic` of this method.
pub fn check_static(
    around: &Around<'_>,
    frame: &mut TypeFrame,
    callee: &MethodShape,
) -> Result<Checked, NoMemory>
    ensures { IfOk result (λ c. (s : Site) (number : ℕ) (k : model.Method) → StandsAt around.now s → slice_get s.program.methods number ≡ Some k
        → HasShape callee.now k → ChecksSite s (rows.CallStatic number) frame.old c frame.new) }
{
    what_is_taken_is_found();
    let all = match pop_arguments(around, &mut frame.operands, callee.parameters.as_slice()) {
        Some(all) => all,
        None => return Ok(Checked::Fails(Rule::Stack)),
    };
    push_result(&mut frame.operands, callee.result)?;
    Ok(Checked::Leaves(Left {
        falls: true,
        access: true,
        init: all,
        target: true,
    }))
}

/// A call of an `<init>` once its arguments are taken.
#[tactic(auto, using(crate::proofs::ListedLemmas::lists_again, crate::proofs::ListedLemmas::lists_kept))]
fn check_begin(
    around: &Around<'_>,
    lists: &mut LocalLists<'_>,
    frame: &mut TypeFrame,
    named: u32,
    all: bool,
) -> Result<Checked, NoMemory>
    ensures lists { OnOk result (HasListsOf lists.old lists.new) }
    ensures checks { IfOk result (λ c. (s : Site) (first : List typing.VarType) → StandsAt around.now s
        → checked_seen c (frame_seen (lists_seen lists.new) frame.new) ≡ init_left s (record
        (frame_seen (lists_seen lists.old) frame.old) { stack = first }) named all (operands_seen frame.old.operands)) }
{
    let object = match frame.operands.pop() {
        Some(item) => item,
        None => return Ok(Checked::Fails(Rule::Stack)),
    };
    if !object.is_reference() {
        return Ok(Checked::Fails(Rule::Stack));
    }
    let begun = seen(around, object);
    frame.locals.substitute(lists, object, begun)?;
    frame.operands.substitute(object, begun);
    frame.flag = keeps(frame.flag, object);
    Ok(Checked::Leaves(Left {
        falls: true,
        access: true,
        init: both(all, may_begin(around, named, object)),
        target: true,
    }))
}

/// Whether `this` still isn't initialised once this is.
fn keeps(flag: bool, begun: VarType) -> bool
    ensures { result ≡ (flag && not (typing.is_this (type_seen begun))) }
{
    flag && !begun.is_this()
}

/// A call of another method of the current class or of a superclass, once its arguments are taken.
fn check_super(
    around: &Around<'_>,
    guarded: bool,
    frame: &mut TypeFrame,
    named: u32,
    all: bool,
    given: Option<Declared>,
) -> Result<Checked, NoMemory>
    ensures { IfOk result (λ c. (s : Site) (first : List typing.VarType) (k : model.Method) (ls : List (List typing.VarType)) → StandsAt around.now s
        → s.program.guarded s.number s.place ≡ guarded → k.result ≡ option_map declared_seen given → checked_seen c (frame_seen ls
        frame.new) ≡ super_left s (record (frame_seen ls frame.old) { stack = first }) named all k (operands_seen frame.old.operands)) }
{
    let object = match frame.operands.pop() {
        Some(item) => item,
        None => return Ok(Checked::Fails(Rule::Stack)),
    };
    if !both(
        is_own_class(around, named),
        is_seen_as(around, around.owner, object),
    ) {
        return Ok(Checked::Fails(Rule::Stack));
    }
    push_result(&mut frame.operands, given)?;
    Ok(Checked::Leaves(Left {
        falls: true,
        access: may_access(around, guarded, object),
        init: both(object.is_initialized(), all),
        target: true,
    }))
}

/// `invokespecial` of this method, named through the class `named`.
#[tactic(auto, using(crate::proofs::ListedLemmas::lists_again, crate::proofs::ListedLemmas::lists_kept))]
pub fn check_special(
    around: &Around<'_>,
    lists: &mut LocalLists<'_>,
    guarded: bool,
    frame: &mut TypeFrame,
    named: u32,
    callee: &MethodShape,
) -> Result<Checked, NoMemory>
    ensures lists { OnOk result (HasListsOf lists.old lists.new) }
    ensures checks { IfOk result (λ c. (s : Site) (number : ℕ) (k : model.Method) → StandsAt around.now s → s.program.guarded s.number s.place ≡ guarded
        → slice_get s.program.methods number ≡ Some k → HasShape callee.now k → ChecksOver (lists_seen lists.old) (lists_seen lists.new) s (rows.CallSpecial
        named number) frame.old c frame.new) }
{
    what_is_taken_is_found();
    let all = match pop_arguments(around, &mut frame.operands, callee.parameters.as_slice()) {
        Some(all) => all,
        None => return Ok(Checked::Fails(Rule::Stack)),
    };
    if callee.is_init {
        return check_begin(around, lists, frame, named, all);
    }
    check_super(around, guarded, frame, named, all, callee.result)
}

/// A call of a method that the receiver's class selects, once its arguments are taken.
fn check_receiver(
    around: &Around<'_>,
    guarded: bool,
    frame: &mut TypeFrame,
    named: u32,
    all: bool,
    given: Option<Declared>,
) -> Result<Checked, NoMemory>
    ensures { IfOk result (λ c. (s : Site) (first : List typing.VarType) (k : model.Method) (ls : List (List typing.VarType)) → StandsAt around.now s
        → s.program.guarded s.number s.place ≡ guarded → k.result ≡ option_map declared_seen given → checked_seen c (frame_seen ls
        frame.new) ≡ virtual_left s (record (frame_seen ls frame.old) { stack = first }) named all k (operands_seen frame.old.operands)) }
{
    let object = match frame.operands.pop() {
        Some(item) => item,
        None => return Ok(Checked::Fails(Rule::Stack)),
    };
    if !is_seen_as(around, named, object) {
        return Ok(Checked::Fails(Rule::Stack));
    }
    push_result(&mut frame.operands, given)?;
    Ok(Checked::Leaves(Left {
        falls: true,
        access: may_access(around, guarded, object),
        init: both(object.is_initialized(), all),
        target: true,
    }))
}

/// `invokevirtual` and `invokeinterface` of this method, named through the class `named`.
pub fn check_virtual(
    around: &Around<'_>,
    guarded: bool,
    frame: &mut TypeFrame,
    named: u32,
    callee: &MethodShape,
) -> Result<Checked, NoMemory>
    ensures class { IfOk result (λ c. (s : Site) (number : ℕ) (k : model.Method) → StandsAt around.now s → s.program.guarded s.number s.place ≡ guarded
        → slice_get s.program.methods number ≡ Some k → HasShape callee.now k → ChecksSite s (rows.CallVirtual named number) frame.old c frame.new) }
    ensures interface { IfOk result (λ c. (s : Site) (number : ℕ) (k : model.Method) → StandsAt around.now s → s.program.guarded s.number s.place ≡ guarded
        → slice_get s.program.methods number ≡ Some k → HasShape callee.now k → ChecksSite s (rows.CallInterface named number) frame.old c frame.new) }
{
    what_is_taken_is_found();
    let all = match pop_arguments(around, &mut frame.operands, callee.parameters.as_slice()) {
        Some(all) => all,
        None => return Ok(Checked::Fails(Rule::Stack)),
    };
    check_receiver(around, guarded, frame, named, all, callee.result)
}

/// Control doesn't go on; whether the rule on initialisation holds.
fn returns(init: bool) -> Checked
    ensures { (f : typing.TypeFrame) → checked_seen result f ≡ Leaves None true init true }
{
    Checked::Leaves(Left {
        falls: false,
        access: true,
        init,
        target: true,
    })
}

/// Whether a return may come now, where the flag says that `this` isn't initialised.
fn may_return(around: &Around<'_>, flag: bool) -> bool
    ensures { (s : Site) (f : typing.TypeFrame) → StandsAt around.now s → f.flag ≡ flag
        → result ≡ checks.may_return s.program s.number s.method s.body s.maps s.place f }
{
    !(around.is_init && flag)
}

/// A return of a value from a method with this result.
fn check_value(
    around: &Around<'_>,
    frame: &mut TypeFrame,
    declared: Declared,
    sort: Moved,
) -> Checked
    ensures { (s : Site) (ls : List (List typing.VarType)) → StandsAt around.now s
        → checked_seen result (frame_seen ls frame.new) ≡ checks.return_check s.program s.number s.method s.body s.maps s.place (frame_seen ls frame.old) (Some
        (declared_seen declared)) (Some (moved_seen sort)) }
{
    let item = match frame.operands.pop() {
        Some(item) => item,
        None => return Checked::Fails(Rule::Stack),
    };
    if !both(item.is_moved(sort), is_seen_for(around, declared, item)) {
        return Checked::Fails(Rule::Stack);
    }
    returns(both(item.is_initialized(), may_return(around, frame.flag)))
}

/// A return of a method with this result.
pub fn check_return(
    around: &Around<'_>,
    frame: &mut TypeFrame,
    declared: Option<Declared>,
    given: Option<Moved>,
) -> Checked
    ensures { (s : Site) → StandsAt around.now s → s.method.result ≡ option_map declared_seen declared
        → ChecksSite s (rows.Return (option_map moved_seen given)) frame.old result frame.new }
{
    match (declared, given) {
        (None, None) => returns(may_return(around, frame.flag)),
        (Some(declared), Some(sort)) => check_value(around, frame, declared, sort),
        (None, Some(_)) => Checked::Fails(Rule::Stack),
        (Some(_), None) => Checked::Fails(Rule::Stack),
    }
}
