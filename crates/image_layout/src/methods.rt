//! The records of methods with code (JVM Specification SE 8, 4.7.3).
ghost use Rattle.std.specs.Prelude.{◌≡◌, ◌++◌, ◌∷◌, [], ◌+◌, ◌*◌, ◌^◌, ◌<◌, length, map, sum_by, Some, IfOk, OnOk, slice_get};
ghost use Rattle.std.specs.List.{flat_map};
ghost use Rattle.bytecode_model.specs.Program.{Method};
ghost use Rattle.class_pool.specs.declared.class.ClassFile.{ClassFile};
ghost use Rattle.base.specs.Packed.{words_for};
ghost use Rattle.image_facts.specs.Says.{argument_words_of, handler_words};
ghost use Rattle.image_facts.specs.Words.{declared_words};
ghost use Rattle.program_tables.specs.Meanings.{declared_seen};
ghost use Rattle.program_tables.specs.Numbers.{methods_by_number};
ghost use Rattle.program_tables.specs.Resolved.{handler_of, resolved};
ghost use Rattle.image_words.specs.Layout.{outline_of, pool_place};
ghost use Rattle.image_words.specs.Regions.{method_image, methods_region};
ghost use Rattle.image_words.specs.Outline.{IsOutline};

use base::NoMemory;
use class_pool::Code;
use image_builder::{add, add_bytes, count, halves, times};
use image_words::{Outline, counted_type, declared_words};
use program_tables::Declared;
use program_tables::laws::{members_are_there, methods_stand_by_number};
use resolved_program::Program;

/// What stands in the upper half of a word counts so many times.
const UPPER: u32 = 65536;

/// The words of values of these types, one after another.
fn words_of_types(types: &[Declared]) -> Result<u32, NoMemory>
    ensures { IfOk result (λ words. words ≡ sum_by declared_words (map declared_seen types.now)) }
{
    let mut words = 0;
    for declared in types {
        words = add(words, declared_words(*declared))?;
    }
    Ok(words)
}

/// The words that a method takes as arguments, the receiver among them.
pub(crate) fn argument_words(program: &Program, method: u32) -> Result<u32, NoMemory>
    requires { method < length (methods_by_number program.now) }
    ensures { IfOk result (λ words. (k : Method) → slice_get (resolved program.now).methods method ≡ Some k → words ≡ argument_words_of k) }
{
    let shape = program.shape(method);
    let words = words_of_types(shape.parameters.as_slice())?;
    if shape.has_this {
        let all = add(words, 1)?;
        Ok(all)
    } else {
        Ok(words)
    }
}

/// An entry of the exception table of a method of the class.
fn add_handler(
    words: &mut Vec<u32>,
    program: &Program,
    class: u32,
    entry: (u16, u16, u16, u16),
) -> Result<(), NoMemory>
    requires { class < length program.now }
    ensures { OnOk result ((k : ClassFile) → slice_get program.now class ≡ Some k
        → words.new.items ≡ words.old.items ++ handler_words (resolved program.now) (handler_of program.now k entry)) }
{
    let handler = program.handler(class, entry);
    let range = halves(handler.start, handler.end);
    let caught = counted_type(program.kinds(), handler.caught)?;
    words.extend_from_slice(&[range, u32::from(handler.target), caught])?;
    Ok(())
}

/// The exception table of a method of the class.
fn add_handlers(
    words: &mut Vec<u32>,
    program: &Program,
    class: u32,
    entries: &[(u16, u16, u16, u16)],
) -> Result<(), NoMemory>
    requires { class < length program.now }
    ensures { OnOk result ((k : ClassFile) → slice_get program.now class ≡ Some k
        → words.new.items ≡ words.old.items ++ flat_map (handler_words (resolved program.now)) (map (handler_of program.now k) entries.now)) }
{
    for entry in entries {
        add_handler(words, program, class, *entry)?;
    }
    Ok(())
}

/// The words of a method's arguments, in the upper half of a word, and those of its code.
fn argument_and_code_words(program: &Program, method: u32, code: &[u8]) -> Result<u32, NoMemory>
    requires { method < length (methods_by_number program.now) }
    ensures { IfOk result (λ word. (k : Method) → slice_get (resolved program.now).methods method ≡ Some k
        → word ≡ argument_words_of k * 2 ^ 16 + words_for (length code.now)) }
{
    let arguments = times(argument_words(program, method)?, UPPER)?;
    add(arguments, count(code.len().div_ceil(4))?)
}

/// The four words in front of a method's exception table and its code.
fn add_sizes(
    words: &mut Vec<u32>,
    program: &Program,
    outline: &Outline,
    method: u32,
    class: u32,
    code: &Code,
) -> Result<(), NoMemory>
    requires outline { IsOutline program.now outline.now }
    requires method { method < length (methods_by_number program.now) }
    ensures { OnOk result ((k : Method) → slice_get (resolved program.now).methods method ≡ Some k
        → words.new.items ≡ words.old.items ++ (code.now.max_locals * 2 ^ 16 + code.now.max_stack)
        ∷ (argument_words_of k * 2 ^ 16 + words_for (length code.now.code)) ∷ pool_place program.now class ∷ length code.now.handlers ∷ []) }
{
    let limits = halves(code.max_locals, code.max_stack);
    let sizes = argument_and_code_words(program, method, code.code.as_slice())?;
    let pool = outline.pool_place(class);
    let entries = count(code.handlers.as_slice().len())?;
    words.extend_from_slice(&[limits, sizes, pool, entries])?;
    Ok(())
}

/// The record of a method; it has none without code.
fn add_method(
    words: &mut Vec<u32>,
    program: &Program,
    outline: &Outline,
    method: u32,
) -> Result<(), NoMemory>
    requires outline { IsOutline program.now outline.now }
    requires method { method < length (methods_by_number program.now) }
    ensures { OnOk result ((k : Method) → slice_get (resolved program.now).methods method ≡ Some k
        → words.new.items ≡ words.old.items ++ method_image program.now (outline_of program.now) k) }
{
    methods_stand_by_number();
    members_are_there();
    let class = program.method(method).class;
    let Some(code) = program.code(method) else {
        return Ok(());
    };
    add_sizes(words, program, outline, method, class, code)?;
    add_handlers(words, program, class, code.handlers.as_slice())?;
    add_bytes(words, code.code.as_slice())
}

/// The methods with code.
pub(crate) fn add_methods(
    words: &mut Vec<u32>,
    program: &Program,
    outline: &Outline,
) -> Result<(), NoMemory>
    requires { IsOutline program.now outline.now }
    ensures { OnOk result (words.new.items ≡ words.old.items ++ methods_region program.now (outline_of program.now)) }
{
    methods_stand_by_number();
    members_are_there();
    for method in 0..program.method_count() {
        add_method(words, program, outline, method)?;
    }
    Ok(())
}
