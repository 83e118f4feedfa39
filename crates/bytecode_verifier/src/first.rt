//! The local variables and the frame with which a method begins (JVM Specification SE 8, 4.10.1.6).
ghost use Rattle.std.specs.Prelude.{◌≡◌, ◌++◌, List, Some, map, IfOk, OnOk};
ghost use Rattle.bytecode_model.specs.Program as model;
ghost use Rattle.bytecode_typing.specs.Types as typing;
ghost use Rattle.bytecode_typing.specs.Walk.{begins_uninitialized, this_types, first_types};
ghost use Rattle.program_tables.specs.Meanings.{declared_seen, HasShape};
ghost use Rattle.verifier_types.specs.Frame.{frame_seen};
ghost use Rattle.verifier_types.specs.Locals.{HasListsOf, LocalTable};
ghost use Rattle.verifier_types.specs.Seen.{type_seen, types_seen};
ghost use Rattle.bytecode_verifier.specs.Begun.{asked_of, first_kinds, BeginsIfRoom};
ghost use Rattle.bytecode_verifier.specs.Listed.{HasLocals};

use crate::names::{Current, all_locals};
use crate::seen::{of_class, type_of};
use base::NoMemory;
use frame_types::FirstLocal;
use program_tables::{Declared, MethodShape};
use std::alloc::Global;
use verifier_types::laws::what_has_room_is_filled;
use verifier_types::{LocalLists, Locals, Operands, TypeFrame, VarType};

/// The number of the class Object.
const OBJECT: u32 = 0;

/// How a method begins.
#[derive(Drop)]
pub struct Beginning {
    /// Its local variables.
    pub locals: Current,
    /// What the rules on frames ask of the type of each.
    pub types: Vec<FirstLocal>,
}

/// Whether the method begins with `this` uninitialised.
fn begins_uninitialized(shape: &MethodShape) -> bool
    ensures { (m : model.Method) → HasShape shape.now m → result ≡ begins_uninitialized m }
{
    shape.has_this && shape.is_init && shape.owner != OBJECT
}

/// The type of `this`, if there is one, as local variables.
fn this_types(alloc: Global, shape: &MethodShape) -> Result<Vec<VarType>, NoMemory>
    ensures { IfOk result (λ types. (m : model.Method) → HasShape shape.now m → types_seen types.items ≡ this_types m) }
{
    let mut types = Vec::new(alloc);
    if shape.has_this {
        if begins_uninitialized(shape) {
            types.push(VarType::UninitializedThis)?;
        } else {
            types.push(VarType::Reference(of_class(shape.owner)))?;
        }
    }
    Ok(types)
}

/// Adds the types of parameters, a long one being one type.
fn push_parameters(types: &mut Vec<VarType>, parameters: &[Declared]) -> Result<(), NoMemory>
    ensures { OnOk result (types_seen types.new.items ≡ types_seen types.old.items ++ map typing.type_of (map declared_seen parameters.now)) }
{
    for parameter in parameters {
        types.push(type_of(*parameter))?;
    }
    Ok(())
}

/// `this` and the parameters, a long one being one type.
fn first_kinds(alloc: Global, shape: &MethodShape) -> Result<Vec<VarType>, NoMemory>
    ensures { IfOk result (λ types. (m : model.Method) → HasShape shape.now m → types_seen types.items ≡ first_kinds m) }
{
    let mut types = this_types(alloc, shape)?;
    push_parameters(&mut types, shape.parameters.as_slice())?;
    Ok(types)
}

/// What the rules on frames ask of the type of a local variable.
fn first_local(item: VarType) -> FirstLocal
    ensures { result ≡ asked_of (type_seen item) }
{
    let words = if item.is_long() { 2 } else { 1 };
    FirstLocal {
        words,
        this: item.is_this(),
    }
}

/// The same of types one after another.
fn first_locals(alloc: Global, types: &[VarType]) -> Result<Vec<FirstLocal>, NoMemory>
    ensures { IfOk result (λ locals. locals.items ≡ map asked_of (types_seen types.now)) }
{
    let mut locals = Vec::new(alloc);
    for item in types {
        locals.push(first_local(*item))?;
    }
    Ok(locals)
}

/// How a method begins, if its local variables have room.
pub fn begin(
    alloc: Global,
    lists: &mut LocalLists<'_>,
    shape: &MethodShape,
    max_locals: u16,
) -> Result<Option<Beginning>, NoMemory>
    requires { lists.old.max_locals ≡ max_locals }
    ensures lists { OnOk result (HasListsOf lists.old lists.new) }
    ensures begins { IfOk result (λ found. (m : model.Method) → HasShape shape.now m → BeginsIfRoom lists.new found (first_kinds m)) }
{
    let kinds = first_kinds(alloc, shape)?;
    let types = first_locals(alloc, &kinds)?;
    match all_locals(alloc, lists, &kinds, max_locals)? {
        Some(locals) => Ok(Some(Beginning { locals, types })),
        None => Ok(None),
    }
}

/// The first frame of a method that begins with these local variables.
pub fn first_frame(alloc: Global, locals: &Current, shape: &MethodShape) -> TypeFrame
    ensures { (t : LocalTable) (m : model.Method) (b : model.Body) (more : List (List typing.VarType)) → HasShape shape.now m → b.max_locals ≡ t.max_locals
        → HasLocals t locals.now (first_kinds m) → Some (frame_seen (t.lists ++ more) result) ≡ first_types m b }
{
    what_has_room_is_filled();
    let flag = begins_uninitialized(shape);
    let locals = Locals::new(locals.list);
    let operands = Operands::new(Vec::new(alloc));
    TypeFrame {
        locals,
        operands,
        flag,
    }
}
