//! The rules of a method in their order, and what fails first in a program (JVM Specification SE 8, 4.7.3, 4.7.4, 4.9.1 and 4.10.1).
ghost use Rattle.std.specs.Prelude.{◌≡◌, ◌<◌, ◌≤◌, ◌&&◌, ◌||◌, ℕ, List, Option, Some, length, map, IfOk, OnOk, slice_get};
ghost use Rattle.std.specs.Option.{option_map};
ghost use Rattle.std.specs.List.{filter};
ghost use Rattle.base.specs.Sizes.{longest_file};
ghost use Rattle.opcodes.specs.Start.{starts_of, first_bad};
ghost use Rattle.class_pool.specs.declared.class.ClassFile.{ClassFile};
ghost use Rattle.bytecode_model.specs.Program as model;
ghost use Rattle.bytecode_typing.specs.Types as typing;
ghost use Rattle.bytecode_typing.specs.Walk as walk;
ghost use Rattle.frame_types.specs.Types.{is_start};
ghost use Rattle.program_tables.specs.Meanings.{handler_seen};
ghost use Rattle.program_tables.specs.Numbers.{methods_by_number};
ghost use Rattle.program_tables.specs.Resolved.{handler_of, resolved};
ghost use Rattle.verifier_types.specs.Frame.{frame_seen};
ghost use Rattle.verifier_types.specs.Locals.{HasListsOf, LocalTable, lists_seen};
ghost use Rattle.bytecode_verifier.specs.Begun.{first_kinds, BeginsIfRoom};
ghost use Rattle.bytecode_verifier.specs.Failure.{is_bad_entry, lesser, least, types_failure, code_failure, method_failure, walk_failure};
ghost use Rattle.bytecode_verifier.specs.Handled.{HoldAlike};
ghost use Rattle.bytecode_verifier.specs.Maps.{AreGiven};
ghost use Rattle.bytecode_verifier.specs.Verdict.{IsFirstFailure};
ghost use Rattle.bytecode_verifier.specs.Methods.{IsCodeOf, method_of, body_of, found_in, AreMaps, failure_seen, walk_failed};
ghost use Rattle.bytecode_verifier.specs.Place.{HasCode, IsMethodOf};

use crate::around::Around;
use crate::fault::MethodRule;
use crate::first::{Beginning, begin, first_frame};
use crate::handlers::{Handlers, by_start};
use crate::laws::first_frames_agree;
use crate::maps::MapFrames;
use crate::names::{Owner, map_frames};
use crate::place::{Step, verdict_at};
use crate::rows::Checking;
use base::NoMemory;
use class_pool::Code;
use class_rules::laws::methods_have_code;
use frame_types::laws::frames_stand_at_instructions;
use frame_types::{MapFault, map_steps};
use opcodes::laws::starts_follow_one_another;
use opcodes::{decode, starts};
use program_tables::Handler;
use program_tables::laws::{members_are_there, methods_stand_by_number};
use resolved_program::Program;
use std::alloc::Global;
use verifier_types::{LocalLists, Rule, TypeFrame};

/// A place, and the rule that fails there.
pub type Failure = (u32, MethodRule);

/// The first of the places at which instructions begin from which the code isn't a whole instruction.
fn first_bad(code: &[u8], starts: &[u32]) -> Option<u32>
    requires starts { starts.now ≡ starts_of code.now }
    requires small { length code.now ≤ longest_file }
    ensures { result ≡ first_bad code.now }
{
    starts_follow_one_another();
    for place in starts {
        if decode(code, *place).is_err() {
            return Some(*place);
        }
    }
    None
}

/// Whether an instruction begins at the place.
fn is_start(code: &[u8], starts: &[u32], place: u16) -> bool
    requires { starts.now ≡ starts_of code.now }
    ensures { result ≡ is_start code.now place }
{
    starts_follow_one_another();
    starts.binary_search(&u32::from(place)).is_ok()
}

/// Whether an entry of an exception table is out of its form: its range is empty, or it doesn't begin, end and lead where instructions
/// begin; it may end with the code.
fn is_bad_entry(code: &[u8], starts: &[u32], entry: (u16, u16, u16, u16)) -> bool
    requires { starts.now ≡ starts_of code.now }
    ensures { result ≡ is_bad_entry code.now entry }
{
    let (start, end, handler, _) = entry;
    if start >= end || !is_start(code, starts, start) || !is_start(code, starts, handler) {
        return true;
    }
    !is_start(code, starts, end) && usize::from(end) != code.len()
}

/// The least start of the entries that are out of their form.
fn least_bad_start(code: &[u8], starts: &[u32], entries: &[(u16, u16, u16, u16)]) -> Option<u16>
    requires { starts.now ≡ starts_of code.now }
    ensures { result ≡ least (map (λ h. h.0) (filter (is_bad_entry code.now) entries.now)) }
{
    let mut found = None;
    for entry in entries {
        if is_bad_entry(code, starts, *entry) {
            found = lesser(found, entry.0);
        }
    }
    found
}

/// The lesser of a number, if there is one, and another.
fn lesser(found: Option<u16>, other: u16) -> Option<u16>
    ensures { result ≡ lesser found (Some other) }
{
    match found {
        Some(number) if number < other => Some(number),
        _ => Some(other),
    }
}

/// The exception table of a method of the class.
fn handlers_of(
    alloc: Global,
    program: &Program,
    class: u32,
    entries: &[(u16, u16, u16, u16)],
) -> Result<Vec<Handler>, NoMemory>
    requires { class < length program.now }
    ensures { IfOk result (λ handlers. (c : ClassFile) → slice_get program.now class ≡ Some c
        → map handler_seen handlers.items ≡ map (handler_of program.now c) entries.now) }
{
    let mut handlers = Vec::new(alloc);
    for entry in entries {
        handlers.push(program.handler(class, *entry))?;
    }
    Ok(handlers)
}

/// The first place of a method at which a rule of the walk fails, and the rule.
fn walk_places(
    alloc: Global,
    checking: &Checking<'_>,
    lists: &mut LocalLists<'_>,
    number: u32,
    starts: &[u32],
    first: TypeFrame,
) -> Result<Option<(u32, Rule)>, NoMemory>
    requires method { number < length (methods_by_number checking.now.program.now) }
    requires code { HasCode checking.now number }
    requires small { length checking.now.code.now ≤ longest_file }
    ensures { IfOk result (λ failed. (m : model.Method) (b : model.Body) (maps : ℕ → Option typing.TypeFrame)
        → IsMethodOf lists.old checking.now number m b maps → option_map walk_failed failed ≡ walk_failure (walk.walk
        (resolved checking.now.program.now) number m b maps starts.now (Some (frame_seen (lists_seen lists.old) first)))) }
{
    let mut falling = Some(first);
    let mut asked = None;
    for place in starts {
        match verdict_at(alloc, checking, lists, number, *place, falling, asked)? {
            Step::Breaks(rule) => return Ok(Some((*place, rule))),
            Step::Goes(frame, held) => {
                falling = frame;
                asked = if held { Some(*place) } else { None };
            }
        }
    }
    Ok(None)
}

/// What is checked of the method of this number, which has this code, these frames and these handlers.
fn checking_of<'a>(
    program: &'a Program,
    number: u32,
    code: &'a Code,
    maps: &'a MapFrames,
    handlers: &'a Handlers,
) -> Checking<'a>
    requires method { number < length (methods_by_number program.now) }
    requires code { IsCodeOf program.now number code.now }
    ensures program { result.program.now ≡ program.now }
    ensures code { result.code.now ≡ code.now.code }
    ensures maps { result.maps.now ≡ maps.now }
    ensures there { HasCode result number }
    ensures method { (h : IsCodeOf program.now number code.now) (given : ℕ → Option typing.TypeFrame) (t : LocalTable) → t.classes ≡ program.now
        → AreGiven (lists_seen t) maps.now given → HoldAlike (map (handler_of program.now h.class) code.now.handlers)
        (map handler_seen handlers.now.items.items) → IsMethodOf t result number (method_of program.now number code.now h)
        (body_of program.now number code.now h) given }
{
    members_are_there();
    methods_stand_by_number();
    let class = program.method(number).class;
    let shape = program.shape(number);
    let around = Around {
        program,
        classes: program.hierarchy(),
        number,
        owner: class,
        is_init: shape.is_init,
    };
    Checking {
        program,
        around,
        maps,
        code: code.code.as_slice(),
        handlers,
        max_locals: code.max_locals,
        max_stack: code.max_stack,
        result: shape.result,
    }
}

/// The walk over the method of this number, which has this code and these frames.
fn walk_method(
    alloc: Global,
    program: &Program,
    number: u32,
    code: &Code,
    starts: &[u32],
    lists: &mut LocalLists<'_>,
    first: TypeFrame,
    maps: &MapFrames,
) -> Result<Option<Failure>, NoMemory>
    requires method { number < length (methods_by_number program.now) }
    requires code { IsCodeOf program.now number code.now }
    requires starts { starts.now ≡ starts_of code.now.code }
    requires small { length code.now.code ≤ longest_file }
    requires classes { lists.old.classes ≡ program.now }
    ensures { IfOk result (λ failure. (h : IsCodeOf program.now number code.now) (given : ℕ → Option typing.TypeFrame)
        → walk.first_types (method_of program.now number code.now h) (body_of program.now number code.now h) ≡ Some (frame_seen
        (lists_seen lists.old) first) → AreGiven (lists_seen lists.old) maps.now given → option_map failure_seen failure ≡ walk_failure (walk.walked (resolved
        program.now) number (method_of program.now number code.now h) (body_of program.now number code.now h) given)) }
{
    members_are_there();
    let class = program.method(number).class;
    let handlers = by_start(handlers_of(alloc, program, class, code.handlers.as_slice())?);
    let checking = checking_of(program, number, code, maps, &handlers);
    match walk_places(alloc, &checking, lists, number, starts, first)? {
        Some((place, rule)) => Ok(Some((place, MethodRule::Walk(rule)))),
        None => Ok(None),
    }
}

/// The frames of the StackMapTable of the method of this number, which begins so. Their local variables refer to the lists.
fn maps_of(
    alloc: Global,
    program: &Program,
    number: u32,
    code: &Code,
    lists: &mut LocalLists<'_>,
    first: Beginning,
) -> Result<MapFrames, MapFault>
    requires method { number < length (methods_by_number program.now) }
    requires code { IsCodeOf program.now number code.now }
    requires small { length code.now.code ≤ longest_file }
    requires room { lists.old.max_locals ≡ code.now.max_locals }
    requires begins { (h : IsCodeOf program.now number code.now) → BeginsIfRoom lists.old (Some first) (first_kinds (method_of program.now number code.now h)) }
    ensures maps { (h : IsCodeOf program.now number code.now) → AreMaps (lists_seen lists.new) program.now (found_in program.now number code.now h) result }
    ensures lists { OnOk result (HasListsOf lists.old lists.new) }
{
    members_are_there();
    frames_stand_at_instructions();
    starts_follow_one_another();
    first_frames_agree();
    program.is_resolved();
    let place = program.method(number);
    let Ok(index) = u32::try_from(place.index) else {
        return Err(MapFault::NoMemory);
    };
    let class = program.class(place.class);
    let steps = map_steps(alloc, class, index, &first.types)?;
    let of = Owner {
        program,
        class: place.class,
    };
    let length = code.code.as_slice().len() as u32;
    let at = steps.as_slice();
    let maps = map_frames(alloc, &of, lists, first.locals, at, code.max_locals, length)?;
    Ok(maps)
}

/// What fails first of the rules on frames and of the walk, in the method of this number, which has this code.
fn types_failure(
    alloc: Global,
    program: &Program,
    number: u32,
    code: &Code,
    starts: &[u32],
) -> Result<Option<Failure>, NoMemory>
    requires method { number < length (methods_by_number program.now) }
    requires code { IsCodeOf program.now number code.now }
    requires starts { starts.now ≡ starts_of code.now.code }
    requires small { length code.now.code ≤ longest_file }
    ensures { IfOk result (λ failure. (h : IsCodeOf program.now number code.now)
        → let m = method_of program.now number code.now h in let b = body_of program.now number code.now h in option_map failure_seen failure
        ≡ types_failure program.now number m b (walk.first_types m b) (found_in program.now number code.now h)) }
{
    methods_stand_by_number();
    let mut lists = LocalLists::new(alloc, program.hierarchy(), code.max_locals)?;
    let shape = program.shape(number);
    let begun = match begin(alloc, &mut lists, shape, code.max_locals)? {
        Some(begun) => begun,
        None => return Ok(Some((0, MethodRule::Map))),
    };
    let first = first_frame(alloc, &begun.locals, shape);
    match maps_of(alloc, program, number, code, &mut lists, begun) {
        Ok(maps) => {
            walk_method(
                alloc, program, number, code, starts, &mut lists, first, &maps,
            )
        }
        Err(fault) => match fault {
            MapFault::Bad(place) => Ok(Some((place, MethodRule::Map))),
            MapFault::NoMemory => Err(NoMemory),
        },
    }
}

/// What fails first in the method of this number, which has this code.
fn code_failure(
    alloc: Global,
    program: &Program,
    number: u32,
    code: &Code,
) -> Result<Option<Failure>, NoMemory>
    requires method { number < length (methods_by_number program.now) }
    requires code { IsCodeOf program.now number code.now }
    requires small { length code.now.code ≤ longest_file }
    ensures { IfOk result (λ failure. (h : IsCodeOf program.now number code.now)
        → option_map failure_seen failure ≡ code_failure program.now number (method_of program.now number code.now h) (body_of program.now number code.now
        h) h.class h.member code.now) }
{
    let bytes = code.code.as_slice();
    let starts = starts(alloc, bytes)?;
    if let Some(place) = first_bad(bytes, &starts) {
        return Ok(Some((place, MethodRule::Opcode)));
    }
    if let Some(place) = least_bad_start(bytes, &starts, code.handlers.as_slice()) {
        return Ok(Some((u32::from(place), MethodRule::Table)));
    }
    types_failure(alloc, program, number, code, &starts)
}

/// What fails first in the method of this number.
fn method_failure(
    alloc: Global,
    program: &Program,
    number: u32,
) -> Result<Option<Failure>, NoMemory>
    requires { number < length (methods_by_number program.now) }
    ensures { IfOk result (λ failure. option_map failure_seen failure ≡ method_failure program.now number) }
{
    match program.code(number) {
        Some(code) => code_failure(alloc, program, number, code),
        None => Ok(None),
    }
}

/// The least method of a program in which a rule fails, with the place and the rule that fail there first.
pub fn first_failure(
    alloc: Global,
    program: &Program,
) -> Result<Option<(u32, u32, MethodRule)>, NoMemory>
    ensures { IfOk result (λ found. IsFirstFailure program.now found) }
{
    for number in 0..program.method_count() {
        if let Some((place, rule)) = method_failure(alloc, program, number)? {
            return Ok(Some((number, place, rule)));
        }
    }
    Ok(None)
}
