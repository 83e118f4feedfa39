//! What loads of local variables push, found by searches that go back to where it was stored, and kept as long as nothing changes it.

ghost use Rattle.std.specs.Prelude.{◌≡◌, ◌↔◌, ℕ, ◌*◌, ◌<◌, length, Contains, IfOk, IfSome, IsTrue, OnOk, Some};
ghost use Rattle.bytecode_model.specs.Program.{Program};
ghost use Rattle.method_flow.specs.Nodes.{At, IsEdge, IsReached};
ghost use Rattle.loop_rules.specs.Further.Found.{known_at};
ghost use Rattle.loop_rules.specs.Further.Known.{Known};
ghost use Rattle.known_ints.specs.Answers.{AreAnswersFor, IsFound, IsJoin, IsToldOfAll, IsSettled, IsSettling, IsStop, IsToldAt, answer_at};
ghost use Rattle.known_ints.specs.Code.{IsCodeOf};
ghost use Rattle.known_ints.specs.Knowing.{load_of};
ghost use Rattle.known_ints.specs.Parts.{part_at};

use crate::code::MethodCode;
use crate::knowing::{Holds, Local, found_of, is_store_of};
use crate::parts::{Part, writes};
use base::NoMemory;
use loop_rules::further::{KnownInt, KnownTable, Stops, known_at};
use std::alloc::Global;

/// What is told of the number that a local variable holds where it is loaded, whichever way control comes there: the int, or the length
/// of the array.
#[derive(Clone, Copy)]
pub enum Answer {
    /// It is this one.
    Known(i32),
    /// It isn't known as long as nothing is found of what the instruction at this place stores, which may have been stored last.
    Until(u32),
    /// It isn't known, whatever is found else.
    Never,
}

/// What is told of a load at a place.
pub fn answer_at(answers: &[Option<Answer>], place: u32) -> Option<Answer>
    ensures { result ≡ answer_at answers.now place }
{
    let index = place as usize;
    if index < answers.len() {
        answers[index]
    } else {
        None
    }
}

/// Whether it is told, and nothing that is found by now changes it.
fn is_settled(found: &[Option<KnownInt>], answer: Option<Answer>) -> bool
    ensures { IsTrue result ↔ IsSettled found.now answer }
{
    match answer {
        None => false,
        Some(Answer::Until(place)) => known_at(found, place).is_none(),
        Some(_) => true,
    }
}

/// The loads of a local variable, with what is found and told by now.
#[derive(Clone, Copy)]
struct Loads<'a> {
    code: &'a MethodCode,
    found: &'a [Option<KnownInt>],
    answers: &'a [Option<Answer>],
    local: Local,
}

/// Whether an instruction that does so loads what the local variable holds.
fn is_load_of(part: Part, local: Local) -> bool
    ensures { IsTrue result ↔ (part ≡ load_of local) }
{
    match (part, local.holds) {
        (Part::Load(index), Holds::AnInt) | (Part::LoadReference(index), Holds::AnArray) => {
            index == local.index
        }
        _ => false,
    }
}

impl<'a> Stops for Loads<'a> {
    ghost stops_at = { λ q x. (p : ℕ) × (x ≡ 2 * p) × IsStop q p };

    /// Whether the search stops at the instruction at a node: it writes the local variable, or it is a load of which it is settled what is
    /// told.
    fn is_stop(&self, node: u32) -> bool {
        if node % 2 == 1 {
            return false;
        }
        let part = self.code.part(node / 2);
        if writes(part, self.local.index) {
            return true;
        }
        is_load_of(part, self.local) && is_settled(self.found, answer_at(self.answers, node / 2))
    }
}

/// What is told of what an instruction at a place stores.
fn stored(found: &[Option<KnownInt>], place: u32) -> Answer
    ensures { IsFound place (known_at found.now place) result }
{
    match known_at(found, place) {
        Some(known) => Answer::Known(known.value),
        None => Answer::Until(place),
    }
}

/// What is told of what was stored last once control has passed the instruction at a place where the search stops.
fn told_at(q: &Loads, place: u32) -> Answer
    ensures { (P : Program) (known : Known) (m : ℕ) → IsCodeOf P known m q.now.code.now
        → AreAnswersFor P m q.now.code.now.parts q.now.found.now q.now.answers.now q.now.local → IsReached (IsEdge P m) (At place)
        → IsStop q.now place → IsToldAt P m q.now place result }
{
    code_lines::laws::lines_follow_one_another();
    let part = q.code.part(place);
    if is_store_of(part, q.local) {
        return stored(q.found, place);
    }
    if writes(part, q.local.index) {
        return Answer::Never;
    }
    match answer_at(q.answers, place) {
        Some(answer) => answer,
        None => Answer::Never,
    }
}

/// What is told of one place more, where this number is what was told of those before it.
fn join(earlier: Option<i32>, told: Answer) -> Answer
    ensures { IsJoin earlier told result }
{
    match (earlier, told) {
        (Some(number), Answer::Known(other)) => {
            if number == other { told } else { Answer::Never }
        }
        _ => told,
    }
}

/// What is told of all of these places, where the search stopped.
fn joined(q: &Loads, places: &[u32]) -> Answer
    ensures { (P : Program) (known : Known) (m : ℕ) → IsCodeOf P known m q.now.code.now
        → AreAnswersFor P m q.now.code.now.parts q.now.found.now q.now.answers.now q.now.local
        → ((p : ℕ) → Contains places.now p → IsReached (IsEdge P m) (At p) × IsStop q.now p)
        → IsToldOfAll (IsToldAt P m q.now) places.now result }
{
    let mut number = None;
    for place in places {
        match join(number, told_at(q, *place)) {
            Answer::Known(value) => number = Some(value),
            other => return other,
        }
    }
    match number {
        Some(value) => Answer::Known(value),
        None => Answer::Never,
    }
}

/// What is told of a load of the local variable at a place, by a search that goes back from there.
fn ask(alloc: Global, q: &Loads, place: u32) -> Result<Answer, NoMemory>
    requires within { place < length q.now.code.now.parts }
    requires load { part_at q.now.code.now.parts place ≡ load_of q.now.local }
    requires asked { ¬ IsSettled q.now.found.now (answer_at q.now.answers.now place) }
    ensures { IfOk result (λ a. (P : Program) (known : Known) (m : ℕ) → IsCodeOf P known m q.now.code.now
        → AreAnswersFor P m q.now.code.now.parts q.now.found.now q.now.answers.now q.now.local → IsReached (IsEdge P m) (At place)
        → IsToldAt P m q.now place a) }
{
    loop_rules::further::laws::last_writes_exist();
    code_lines::laws::lines_follow_one_another();
    let near = q.code.nearest(alloc, q, place)?;
    if near.unwritten {
        return Ok(Answer::Never);
    }
    Ok(joined(q, &near.places))
}

/// The local variable of which an instruction that does so loads what it holds.
fn loaded(part: Part) -> Option<Local>
    ensures { (l : Local) → (result ≡ Some l) ↔ (part ≡ load_of l) }
{
    match part {
        Part::Load(index) => Some(Local {
            index,
            holds: Holds::AnInt,
        }),
        Part::LoadReference(index) => Some(Local {
            index,
            holds: Holds::AnArray,
        }),
        _ => None,
    }
}

/// What is told of a load at a place, asked anew where it isn't settled.
fn told_of_load(alloc: Global, q: &Loads, place: u32) -> Result<Option<Answer>, NoMemory>
    requires within { place < length q.now.code.now.parts }
    requires load { part_at q.now.code.now.parts place ≡ load_of q.now.local }
    ensures { IfOk result (λ o. (P : Program) (known : Known) (m : ℕ) → IsCodeOf P known m q.now.code.now
        → AreAnswersFor P m q.now.code.now.parts q.now.found.now q.now.answers.now q.now.local → IsReached (IsEdge P m) (At place)
        → IfSome o (IsToldAt P m q.now place) × IsSettled q.now.found.now o) }
{
    let told = answer_at(q.answers, place);
    if is_settled(q.found, told) {
        Ok(told)
    } else {
        Ok(Some(ask(alloc, q, place)?))
    }
}

/// Settles what is told of the instruction at a place, if it is a load.
pub fn settle(
    alloc: Global,
    code: &MethodCode,
    found: &KnownTable,
    answers: &mut Vec<Option<Answer>>,
    place: u32,
) -> Result<(), NoMemory>
    requires within { place < length code.now.parts }
    requires long { length answers.old.items ≡ length code.now.parts }
    ensures { OnOk result (IsSettling code.now found.now answers.old.items answers.new.items place) }
{
    if let Some(local) = loaded(code.part(place)) {
        let q = Loads {
            code,
            found: found_of(found, local.holds),
            answers,
            local,
        };
        let told = told_of_load(alloc, &q, place)?;
        answers[place as usize] = told;
    }
    Ok(())
}
