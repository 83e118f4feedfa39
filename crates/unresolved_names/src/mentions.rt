//! What a class names besides its supertypes: in descriptors, instructions, exception tables and frames.
ghost use Rattle.std.specs.Prelude.{◌≡◌, ◌≤◌, ◌<◌, ◌^◌, [], length, IfOk, IfSome, Some, slice_get};
ghost use Rattle.std.specs.List.{flat_map};
ghost use Rattle.std.specs.Option.{option_map_or};
ghost use Rattle.base.specs.Sizes.{longest_file};
ghost use Rattle.class_pool.specs.Found.{code_of};
ghost use Rattle.class_lookup.specs.Parts.{signature_of};
ghost use Rattle.program_tables.specs.Instructions.{placed_at, instructions_in};
ghost use Rattle.program_tables.specs.Tables.{seen_in, HasFileLimits};
ghost use Rattle.program_tables.specs.Unresolved.{implements_all as implements_each, may_be_made, mentions_in_code, mentions_in_method, FieldDescriptor};
ghost use Rattle.bytecode_model.specs.Lists.{onto};
ghost use Rattle.lists.specs.Lists.{first};
ghost use Rattle.unresolved_names.specs.Causes.{refused_catch, refused_frame_class, refused_instruction, refused_mention, unresolved_mentions};
ghost use Rattle.unresolved_names.specs.Words.{class_use_reason, named_reason};

use crate::access::is_concrete;
use crate::caller::{Caller, Namer};
use crate::fields::why_field;
use crate::frames::classes_in_frames;
use crate::methods::why_method;
use crate::names::{is_entry_there, is_field_there, is_method_there, why_class};
use crate::parts::class_named;
use crate::supertypes::refused_class;
use base::NoMemory;
use class_hierarchy::Hierarchy;
use class_pool::{ClassFile, Code, Member};
use opcodes::laws::starts_follow_one_another;
use opcodes::mnemonics::NEW;
use opcodes::starts;
use program_tables::{Named, TextTypes, Why, named_in, naming_at};
use std::alloc::Global;

/// Whether an object of the class of a Class entry may be made.
fn may_be_made(namer: &Namer<'_>, index: u16) -> bool
    ensures { result ≡ may_be_made namer.now.texts.now namer.now.class.now index }
{
    match class_named(namer, index) {
        Some(number) => is_concrete(namer.texts.classes(), number),
        None => false,
    }
}

/// Why the class isn't resolved that an instruction names by a Class entry.
#[tactic(auto, unfolding(crate::specs::Words::class_use_reason, crate::specs::Words::class_reason))]
fn why_class_use(namer: &Namer<'_>, op: u8, index: u16) -> Option<Why>
    ensures { result ≡ class_use_reason namer.now.texts.now namer.now.number namer.now.class.now op index }
{
    if let Some(why) = why_class(namer, index) {
        return Some(why);
    }
    if op == NEW && !may_be_made(namer, index) {
        return Some(Why::WrongKind);
    }
    None
}

/// Why what an instruction of the caller's method names isn't resolved.
fn why_there(caller: &Caller<'_>, method: &Member, op: u8, named: Named) -> Option<Why>
    ensures { result ≡ named_reason caller.now.classes.now caller.now.namer.number caller.now.namer.class.now
        (signature_of caller.now.namer.class.now method.now) op (seen_in caller.now.namer.class.now.pool named) }
{
    let pool = &caller.namer.class.pool;
    match named {
        Named::Constant(_) => None,
        Named::Class(index) => why_class_use(&caller.namer, op, index),
        Named::Field(index, member) => match pool.name_and_type(member) {
            Some((name, descriptor)) => why_field(caller, method, op, index, name, descriptor),
            None => None,
        },
        Named::Method(index, member) => match pool.name_and_type(member) {
            Some((name, descriptor)) => why_method(caller, false, op, index, name, descriptor),
            None => None,
        },
        Named::InterfaceMethod(index, member) => match pool.name_and_type(member) {
            Some((name, descriptor)) => why_method(caller, true, op, index, name, descriptor),
            None => None,
        },
    }
}

/// The same where an instruction may name nothing.
#[tactic(auto, unfolding(crate::specs::Words::named_reason))]
fn why_named(caller: &Caller<'_>, method: &Member, op: u8, named: Option<Named>) -> Option<Why>
    ensures { result ≡ named_reason caller.now.classes.now caller.now.namer.number caller.now.namer.class.now
        (signature_of caller.now.namer.class.now method.now) op (onto named (seen_in caller.now.namer.class.now.pool)) }
{
    match named {
        Some(named) => why_there(caller, method, op, named),
        None => None,
    }
}

/// What an instruction at a place of the caller's method names, if it isn't resolved.
#[tactic(auto, using(crate::proofs::MentionLemmas::of_placed, crate::proofs::MentionLemmas::of_nothing), unfolding(crate::specs::Causes::refused_instruction, crate::specs::Words::named_reason))]
fn refused_at_place(
    caller: &Caller<'_>,
    method: &Member,
    code: &[u8],
    pc: u32,
) -> Option<(u32, Why)>
    requires pool { length caller.now.namer.class.now.pool < 2 ^ 16 }
    requires inside { pc < length code.now }
    requires small { length code.now ≤ longest_file }
    ensures { result ≡ first (option_map_or (refused_instruction caller.now.classes.now caller.now.namer.number caller.now.namer.class.now method.now)
        (placed_at code.now pc) []) }
{
    match naming_at(code, pc) {
        Some(instr) => {
            let named = named_in(caller.namer.class, &instr);
            match why_named(caller, method, instr.op, named) {
                Some(why) => Some((instr.first.unsigned_abs(), why)),
                None => None,
            }
        }
        None => None,
    }
}

/// The first in the instructions of a code.
fn first_at_instructions(
    alloc: Global,
    caller: &Caller<'_>,
    method: &Member,
    code: &[u8],
) -> Result<Option<(u32, Why)>, NoMemory>
    requires pool { length caller.now.namer.class.now.pool < 2 ^ 16 }
    requires small { length code.now ≤ longest_file }
    ensures { IfOk result (λ found. found ≡ first (flat_map
        (refused_instruction caller.now.classes.now caller.now.namer.number caller.now.namer.class.now method.now) (instructions_in code.now))) }
{
    starts_follow_one_another();
    let starts = starts(alloc, code)?;
    for pc in &starts {
        if let Some(found) = refused_at_place(caller, method, code, *pc) {
            return Ok(Some(found));
        }
    }
    Ok(None)
}

/// The class that an entry of an exception table names, if it names one that isn't resolved.
fn refused_handler(namer: &Namer<'_>, index: u16) -> Option<(u32, Why)>
    ensures { result ≡ first (refused_catch namer.now.texts.now namer.now.number namer.now.class.now index) }
{
    if index == 0 {
        return None;
    }
    refused_class(namer, index)
}

/// The first in an exception table.
fn first_at_handlers(namer: &Namer<'_>, handlers: &[(u16, u16, u16, u16)]) -> Option<(u32, Why)>
    ensures { result ≡ first (flat_map (λ h. refused_catch namer.now.texts.now namer.now.number namer.now.class.now h.3) handlers.now) }
{
    for handler in handlers {
        if let Some(found) = refused_handler(namer, handler.3) {
            return Some(found);
        }
    }
    None
}

/// A class that a frame names, if it isn't there.
#[tactic(auto, unfolding(crate::specs::Causes::refused_frame_class))]
fn refused_in_frame(namer: &Namer<'_>, index: u16) -> Option<(u32, Why)>
    ensures { result ≡ first (refused_frame_class namer.now.texts.now namer.now.class.now index) }
{
    if is_entry_there(namer, index) {
        None
    } else {
        Some((u32::from(index), Why::NoClass))
    }
}

/// The first of the classes that frames name, which only have to be there.
fn first_in_frames(namer: &Namer<'_>, indexes: &[u16]) -> Option<(u32, Why)>
    ensures { result ≡ first (flat_map (refused_frame_class namer.now.texts.now namer.now.class.now) indexes.now) }
{
    for index in indexes {
        if let Some(found) = refused_in_frame(namer, *index) {
            return Some(found);
        }
    }
    None
}

/// The first in a code: its instructions by place, then its exception table, then its frames.
fn first_in_code(
    alloc: Global,
    caller: &Caller<'_>,
    method: &Member,
    code: &Code,
) -> Result<Option<(u32, Why)>, NoMemory>
    requires pool { length caller.now.namer.class.now.pool < 2 ^ 16 }
    requires small { length code.now.code ≤ longest_file }
    requires of_method { code_of method.now ≡ Some code.now }
    ensures { IfOk result (λ found. found ≡ first (flat_map (refused_mention caller.now.classes.now caller.now.namer.number caller.now.namer.class.now)
        (mentions_in_code caller.now.namer.class.now method.now code.now))) }
{
    let bytes = code.code.as_slice();
    if let Some(found) = first_at_instructions(alloc, caller, method, bytes)? {
        return Ok(Some(found));
    }
    let handlers = code.handlers.as_slice();
    if let Some(caught) = first_at_handlers(&caller.namer, handlers) {
        return Ok(Some(caught));
    }
    let indexes = classes_in_frames(alloc, &caller.namer.class.pool, code)?;
    Ok(first_in_frames(&caller.namer, &indexes))
}

/// The first in a method: its descriptor, then its code.
fn first_in_method(
    alloc: Global,
    caller: &Caller<'_>,
    method: &Member,
) -> Result<Option<(u32, Why)>, NoMemory>
    requires pool { length caller.now.namer.class.now.pool < 2 ^ 16 }
    requires small { IfSome (code_of method.now) (λ k. length k.code ≤ longest_file) }
    ensures { IfOk result (λ found. found ≡ first (flat_map (refused_mention caller.now.classes.now caller.now.namer.number caller.now.namer.class.now)
        (mentions_in_method caller.now.namer.class.now method.now))) }
{
    if !is_method_there(&caller.namer, method.descriptor) {
        return Ok(Some((u32::from(method.descriptor), Why::NoClass)));
    }
    match method.code() {
        Some(code) => first_in_code(alloc, caller, method, code),
        None => Ok(None),
    }
}

/// The first in the methods of a class.
fn first_in_methods(alloc: Global, caller: &Caller<'_>) -> Result<Option<(u32, Why)>, NoMemory>
    requires bounds { HasFileLimits caller.now.namer.class.now }
    ensures { IfOk result (λ found. found ≡ first (flat_map (λ m. flat_map
        (refused_mention caller.now.classes.now caller.now.namer.number caller.now.namer.class.now)
        (mentions_in_method caller.now.namer.class.now m)) caller.now.namer.class.now.methods)) }
{
    for method in caller.namer.class.methods.as_slice() {
        if let Some(found) = first_in_method(alloc, caller, method)? {
            return Ok(Some(found));
        }
    }
    Ok(None)
}

/// The descriptor of a field, if a class in it isn't there.
#[tactic(auto, unfolding(crate::specs::Causes::refused_mention))]
fn refused_field(namer: &Namer<'_>, field: &Member) -> Option<(u32, Why)>
    ensures { result ≡ first (refused_mention namer.now.texts.now namer.now.number namer.now.class.now (FieldDescriptor field.now)) }
{
    if is_field_there(namer, field.descriptor) {
        None
    } else {
        Some((u32::from(field.descriptor), Why::NoClass))
    }
}

/// The first in the descriptors of the fields of a class.
fn first_in_fields(namer: &Namer<'_>) -> Option<(u32, Why)>
    ensures { result ≡ first (flat_map (λ f. refused_mention namer.now.texts.now namer.now.number namer.now.class.now (FieldDescriptor f))
        namer.now.class.now.fields) }
{
    for field in namer.class.fields.as_slice() {
        if let Some(found) = refused_field(namer, field) {
            return Some(found);
        }
    }
    None
}

/// The first of what a class names besides its supertypes and what isn't resolved, by its entry: the class itself where it leaves an
/// abstract method without code (`implements_all` says that it doesn't); then the descriptors of its fields; then of each method its
/// descriptor, its instructions by place, its exception table and its frames. The class is that of the number `caller`.
pub fn first_unresolved<'a>(
    alloc: Global,
    classes: &'a Hierarchy,
    texts: &'a TextTypes<'a>,
    caller: u32,
    class: &'a ClassFile,
    implements_all: bool,
) -> Result<Option<(u32, Why)>, NoMemory>
    requires caller { caller < length classes.now }
    requires own { slice_get classes.now caller ≡ Some class.now }
    requires texts { texts.now ≡ classes.now }
    requires bounds { HasFileLimits class.now }
    requires implements { implements_all ≡ implements_each classes.now caller }
    ensures { IfOk result (λ found. found ≡ first (unresolved_mentions classes.now caller class.now)) }
{
    if !implements_all {
        return Ok(Some((u32::from(class.this_class), Why::NotImplemented)));
    }
    let namer = Namer {
        texts,
        number: caller,
        class,
    };
    let caller = Caller { classes, namer };
    if let Some(found) = first_in_fields(&caller.namer) {
        return Ok(Some(found));
    }
    first_in_methods(alloc, &caller)
}
