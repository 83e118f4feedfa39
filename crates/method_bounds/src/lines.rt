//! The lines of the bounds of all methods.
ghost use Rattle.std.specs.Prelude.{◌≡◌, ◌++◌, length, codes, decimal, OnOk, IfOk};
ghost use Rattle.method_bounds.specs.Lines.{name_in, cause_words, answer_words, bound_line, line_beside, lines_from};

use super::answer::BoundAnswer;
use answer_lines::BoundCause;
use ascii_text::put_u64;
use base::NoMemory;
use method_flow::FlowProgram;
use std::alloc::Global;

/// Appends a number sign and the number.
fn put_number(text: &mut Vec<u8>, m: u32) -> Result<(), NoMemory>
    ensures { OnOk result (text.new.items ≡ text.old.items ++ (codes "#" ++ decimal m)) }
{
    text.push(b'#')?;
    put_u64(text, m as u64)
}

/// Appends the name of the method of this number, or what stands for it where the table has none.
fn put_name(text: &mut Vec<u8>, f: &FlowProgram, m: u32) -> Result<(), NoMemory>
    ensures { OnOk result (text.new.items ≡ text.old.items ++ name_in f.now m) }
{
    if m < f.method_count() {
        Ok(text.extend_from_slice(f.method(m).name())?)
    } else {
        put_number(text, m)
    }
}

/// Appends words and the name of a method.
fn put_named(text: &mut Vec<u8>, words: &[u8], f: &FlowProgram, m: u32) -> Result<(), NoMemory>
    ensures { OnOk result (text.new.items ≡ text.old.items ++ (words.now ++ name_in f.now m)) }
{
    text.extend_from_slice(words)?;
    put_name(text, f, m)
}

/// Appends a blank and a place of a method's code.
fn put_place(text: &mut Vec<u8>, place: u32) -> Result<(), NoMemory>
    ensures { OnOk result (text.new.items ≡ text.old.items ++ (codes " " ++ decimal place)) }
{
    text.push(b' ')?;
    put_u64(text, place as u64)
}

/// Appends that the loop at the place of the method has no bound.
fn put_missing(text: &mut Vec<u8>, f: &FlowProgram, m: u32, place: u32) -> Result<(), NoMemory>
    ensures { OnOk result (text.new.items
        ≡ text.old.items ++ (codes "missing bound " ++ (name_in f.now m ++ (codes " " ++ decimal place)))) }
{
    put_named(text, b"missing bound ", f, m)?;
    put_place(text, place)
}

/// Appends the cause in words.
fn put_cause(text: &mut Vec<u8>, f: &FlowProgram, cause: BoundCause) -> Result<(), NoMemory>
    ensures { OnOk result (text.new.items ≡ text.old.items ++ cause_words (name_in f.now) cause) }
{
    match cause {
        BoundCause::NoMethod => Ok(()),
        BoundCause::Recursion => Ok(text.extend_from_slice(b"recursion")?),
        BoundCause::Irreducible(m) => put_named(text, b"irreducible ", f, m),
        BoundCause::MissingBound(m, place) => put_missing(text, f, m, place),
        BoundCause::TooLarge(m) => put_named(text, b"too large ", f, m),
    }
}

/// Appends the number that is printed of a method.
fn put_cycles(text: &mut Vec<u8>, cycles: u64) -> Result<(), NoMemory>
    ensures { OnOk result (text.new.items ≡ text.old.items ++ (codes " bound=" ++ (decimal cycles ++ codes "\n"))) }
{
    text.extend_from_slice(b" bound=")?;
    put_u64(text, cycles)?;
    Ok(text.push(b'\n')?)
}

/// Appends why no number is printed of a method.
fn put_refused(text: &mut Vec<u8>, f: &FlowProgram, cause: BoundCause) -> Result<(), NoMemory>
    ensures { OnOk result (text.new.items
        ≡ text.old.items ++ (codes " bound=none " ++ (cause_words (name_in f.now) cause ++ codes "\n"))) }
{
    text.extend_from_slice(b" bound=none ")?;
    put_cause(text, f, cause)?;
    Ok(text.push(b'\n')?)
}

/// Appends what stands behind the method's name.
fn put_answer(text: &mut Vec<u8>, f: &FlowProgram, answer: BoundAnswer) -> Result<(), NoMemory>
    ensures { OnOk result (text.new.items ≡ text.old.items ++ answer_words (name_in f.now) answer) }
{
    match answer {
        BoundAnswer::Cycles(cycles) => put_cycles(text, cycles),
        BoundAnswer::Never => Ok(text.extend_from_slice(b" bound=never\n")?),
        BoundAnswer::Refused(cause) => put_refused(text, f, cause),
    }
}

/// Appends the method's line.
fn put_method(
    text: &mut Vec<u8>,
    f: &FlowProgram,
    m: u32,
    answer: BoundAnswer,
) -> Result<(), NoMemory>
    ensures { OnOk result (text.new.items ≡ text.old.items ++ bound_line (name_in f.now) m answer) }
{
    put_name(text, f, m)?;
    put_answer(text, f, answer)
}

/// Appends the method's line, unless it is the method that starts the program.
fn put_line(
    text: &mut Vec<u8>,
    f: &FlowProgram,
    m: u32,
    answer: BoundAnswer,
) -> Result<(), NoMemory>
    ensures { OnOk result (text.new.items ≡ text.old.items ++ line_beside f.now.boot (name_in f.now) m answer) }
{
    if m == f.boot() {
        Ok(())
    } else {
        put_method(text, f, m, answer)
    }
}

/// The lines of all methods of the table but the one that starts the program, of which these are the answers, by number.
pub fn lines_of(
    alloc: Global,
    f: &FlowProgram,
    answers: &[BoundAnswer],
) -> Result<Vec<u8>, NoMemory>
    requires { length answers.now ≡ length f.now.methods }
    ensures { IfOk result (λ text. text.items ≡ lines_from f.now.boot (name_in f.now) 0 answers.now) }
{
    let mut text = Vec::new(alloc);
    for m in 0..f.method_count() {
        put_line(&mut text, f, m, answers[m as usize])?;
    }
    Ok(text)
}
