//! What lines push is found by what is known already.

ghost use Rattle.std.specs.Prelude.{◌≡◌, ◌↔◌, ℕ, ℤ, pos, ◌≤ℤ◌, List, IfSome, IsTrue, Some};
ghost use Rattle.std.specs.declared.option.Option.{Option};
ghost use Rattle.bytecode_model.specs.Program.{Program};
ghost use Rattle.method_flow.specs.Nodes.{At, IsEdge, IsReached};
ghost use Rattle.loop_rules.specs.Further.Known.{Known};
ghost use Rattle.loop_rules.specs.Further.Found.{known_at};
ghost use Rattle.known_ints.specs.Answers.{IsAnswer, IsAsked, IsSettled, answer_at};
ghost use Rattle.known_ints.specs.Code.{CodeOf, IsCodeOf};
ghost use Rattle.known_ints.specs.Knowing.{GivesBy, GivesInt, GivesLength, IsComputedBy, IsConstantPart, IsDoneBefore, IsFilledBefore, IsGiven};
ghost use Rattle.known_ints.specs.Knowing.{IsLoadedBy, IsReferenceLoad, found_of, store_of};
ghost use Rattle.known_ints.specs.Rounds.{IsLineOf};
ghost use Rattle.known_ints.specs.Parts.{part_at};

use crate::answers::{Answer, answer_at};
use crate::arithmetic::computed;
use crate::code::MethodCode;
use crate::lines::Line;
use crate::parts::Part;
use crate::rows::Arithmetic;
use loop_rules::further::{KnownInt, KnownTable, known_at};

/// What is told of a local variable: the int that it holds, or the length of the array.
#[derive(Clone, Copy)]
pub enum Holds {
    AnInt,
    AnArray,
}

/// A local variable.
#[derive(Clone, Copy)]
pub struct Local {
    pub index: u32,
    pub holds: Holds,
}

/// What is found of ints, or of lengths of arrays.
pub fn found_of(found: &KnownTable, holds: Holds) -> &[Option<KnownInt>]
    ensures { result.now ≡ found_of found.now holds }
{
    match holds {
        Holds::AnInt => &found.ints,
        Holds::AnArray => &found.lengths,
    }
}

/// Whether it stores into the local variable.
pub fn is_store_of(part: Part, local: Local) -> bool
    ensures { IsTrue result ↔ (part ≡ store_of local) }
{
    match (part, local.holds) {
        (Part::Store(index), Holds::AnInt) | (Part::StoreReference(index), Holds::AnArray) => {
            index == local.index
        }
        _ => false,
    }
}

/// An int that the instruction at a place alone pushes.
fn pushed_at(place: u32, value: i32) -> Option<KnownInt>
    ensures { (x : KnownInt) → (result ≡ Some x) ↔ ((x.from ≡ place) × (value ≡ x.value)) }
{
    Some(KnownInt { from: place, value })
}

/// What a load of a local variable at a place pushes, by what is told of it.
fn loaded(answers: &[Option<Answer>], place: u32) -> Option<KnownInt>
    ensures { (P : Program) (known : Known) (m : ℕ) (code : CodeOf) (found : List (Option KnownInt)) (local : Local) → IsCodeOf P known m code
        → IsReached (IsEdge P m) (At place) → IsSettled found (answer_at answers.now place)
        → IfSome (answer_at answers.now place) (IsAnswer P m code.parts found local place)
        → IsGiven (IsLoadedBy P m code.parts found local place) result }
{
    loop_rules::further::laws::last_writes_exist();
    match answer_at(answers, place)? {
        Answer::Known(value) => Some(KnownInt { from: place, value }),
        _ => None,
    }
}

/// What is computed at a place.
fn computed_at(ints: &[Option<KnownInt>], arithmetic: Arithmetic, place: u32) -> Option<KnownInt>
    ensures { IsGiven (IsComputedBy ints.now arithmetic place) result }
{
    let upper = known_at(ints, place)?;
    let lower = known_at(ints, upper.from)?;
    let value = computed(arithmetic, upper.value, lower.value)?;
    Some(KnownInt {
        from: lower.from,
        value,
    })
}

/// The length of an array that is made as long as this int says.
fn made(known: Option<KnownInt>) -> Option<KnownInt>
    ensures { IsGiven (λ from x. (known ≡ Some (record { from = from; value = x })) × (pos 0 ≤ℤ x)) result }
{
    let length = known?;
    if length.value >= 0 {
        Some(length)
    } else {
        None
    }
}

/// The place of the instruction directly before a place that nothing names, if it pushes a constant.
fn constant_before(code: &MethodCode, place: u32) -> Option<u32>
    ensures { (p : ℕ) → (result ≡ Some p) ↔ IsDoneBefore code.now IsConstantPart place p }
{
    if code.is_named(place) {
        return None;
    }
    let before = code.before(place)?;
    if matches!(code.part(before), Part::Int(_) | Part::Constant) {
        Some(before)
    } else {
        None
    }
}

/// The same if it copies the topmost word.
fn copy_before(code: &MethodCode, place: u32) -> Option<u32>
    ensures { (p : ℕ) → (result ≡ Some p) ↔ IsDoneBefore code.now (λ part. part ≡ Part.Copy) place p }
{
    if code.is_named(place) {
        return None;
    }
    let before = code.before(place)?;
    if matches!(code.part(before), Part::Copy) {
        Some(before)
    } else {
        None
    }
}

/// The same if it pushes the reference of a local variable.
fn load_before(code: &MethodCode, place: u32) -> Option<u32>
    ensures { (p : ℕ) → (result ≡ Some p) ↔ IsDoneBefore code.now IsReferenceLoad place p }
{
    if code.is_named(place) {
        return None;
    }
    let before = code.before(place)?;
    if matches!(code.part(before), Part::LoadReference(_)) {
        Some(before)
    } else {
        None
    }
}

/// The length of the array that the instruction at a place pushes, which reads a field of the object in a local variable.
fn read_from(code: &MethodCode, place: u32, value: i32) -> Option<KnownInt>
    ensures { (x : KnownInt) → (result ≡ Some x) ↔ (IsDoneBefore code.now IsReferenceLoad place x.from × (x.value ≡ value)) }
{
    let from = load_before(code, place)?;
    Some(KnownInt { from, value })
}

/// The array of which the instruction at a place fills an element.
fn filled(code: &MethodCode, lengths: &[Option<KnownInt>], store: u32) -> Option<KnownInt>
    ensures { IsGiven (IsFilledBefore code.now lengths.now store) result }
{
    let value = constant_before(code, store)?;
    let index = constant_before(code, value)?;
    let copy = copy_before(code, index)?;
    known_at(lengths, copy)
}

/// The int that lines push of which the last one, at a place, does so.
fn int_by(
    code: &MethodCode,
    found: &KnownTable,
    answers: &[Option<Answer>],
    place: u32,
    part: Part,
) -> Option<KnownInt>
    requires { part ≡ part_at code.now.parts place }
    ensures { (P : Program) (known : Known) (m : ℕ) → IsCodeOf P known m code.now → IsReached (IsEdge P m) (At place)
        → IsAsked P m code.now found.now answers.now place → IsGiven (GivesInt P m code.now found.now place part) result }
{
    match part {
        Part::Int(value) => pushed_at(place, value),
        Part::Field(value) => pushed_at(place, value),
        Part::Load(_) => loaded(answers, place),
        Part::Length => known_at(&found.lengths, place),
        Part::Compute(arithmetic) => computed_at(&found.ints, arithmetic, place),
        _ => None,
    }
}

/// The length of the array that lines push of which the last one, at a place, does so.
fn length_by(
    code: &MethodCode,
    found: &KnownTable,
    answers: &[Option<Answer>],
    place: u32,
    part: Part,
) -> Option<KnownInt>
    requires { part ≡ part_at code.now.parts place }
    ensures { (P : Program) (known : Known) (m : ℕ) → IsCodeOf P known m code.now → IsReached (IsEdge P m) (At place)
        → IsAsked P m code.now found.now answers.now place → IsGiven (GivesLength P m code.now found.now place part) result }
{
    match part {
        Part::NewArray => made(known_at(&found.ints, place)),
        Part::LoadReference(_) => loaded(answers, place),
        Part::StaticArray(value) => pushed_at(place, value),
        Part::FieldArray(value) => read_from(code, place, value),
        Part::StoreNumber => filled(code, &found.lengths, place),
        _ => None,
    }
}

/// What lines push of this sort, of which the last one is there.
pub fn given_at(
    code: &MethodCode,
    found: &KnownTable,
    answers: &[Option<Answer>],
    line: Line,
) -> Option<KnownInt>
    requires { IsLineOf code.now line }
    ensures { (P : Program) (known : Known) (m : ℕ) → IsCodeOf P known m code.now → IsAsked P m code.now found.now answers.now line.last
        → IsGiven (GivesBy P m code.now found.now line.holds line.place) result }
{
    loop_rules::further::laws::lines_before_are_reached();
    let part = code.part(line.last);
    match line.holds {
        Holds::AnInt => int_by(code, found, answers, line.last, part),
        Holds::AnArray => length_by(code, found, answers, line.last, part),
    }
}
