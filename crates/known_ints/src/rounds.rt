//! What lines push, by rounds: each asks the lines of which nothing is found, until nothing more follows.

ghost use Rattle.std.specs.Prelude.{◌≡◌, ℕ, ◌*◌, ◌<◌, length, All, IfOk};
ghost use Rattle.bytecode_model.specs.Program.{Program};
ghost use Rattle.method_flow.specs.Flow.{IsCodedOf};
ghost use Rattle.loop_rules.specs.Sites.{AreNeverPut, AreSitesOf};
ghost use Rattle.loop_rules.specs.Further.Arrays.{AreApart, AreArraysRead};
ghost use Rattle.loop_rules.specs.Further.Known.{Known};
ghost use Rattle.known_ints.specs.Code.{IsCodeOf};
ghost use Rattle.loop_rules.specs.Further.Found.{AreKnownInts, AreKnownLengths};
ghost use Rattle.known_ints.specs.Knowing.{found_of};
ghost use Rattle.known_ints.specs.Rounds.{AreEmpty, AreSized, IsLineOf, IsPutIfGiven, IsRound, IsVisited};

use crate::answers::{Answer, settle};
use crate::code::MethodCode;
use crate::knowing::{Holds, found_of, given_at};
use crate::lines::{Line, lines};
use base::NoMemory;
use loop_rules::MethodSites;
use loop_rules::further::{KnownInt, KnownTable, known_at};
use method_flow::FlowMethod;
use std::alloc::Global;

/// Puts what is given of lines, if anything is; whether it is.
fn take(found: &mut KnownTable, line: Line, given: Option<KnownInt>) -> bool
    requires { line.place < length (found_of found.old line.holds) }
    ensures { IsPutIfGiven line given found.old found.new result }
{
    if given.is_none() {
        return false;
    }
    match line.holds {
        Holds::AnInt => found.ints[line.place as usize] = given,
        Holds::AnArray => found.lengths[line.place as usize] = given,
    }
    true
}

/// Finds what lines push, if nothing is found of them; whether something is found now.
fn visit(
    alloc: Global,
    code: &MethodCode,
    line: Line,
    found: &mut KnownTable,
    answers: &mut Vec<Option<Answer>>,
) -> Result<bool, NoMemory>
    requires line { IsLineOf code.now line }
    requires sized { AreSized code.now found.old answers.old.items }
    ensures { IfOk result (IsVisited code.now line found.old found.new answers.old.items answers.new.items) }
{
    code_lines::laws::lines_follow_one_another();
    loop_rules::further::laws::last_writes_exist();
    loop_rules::further::laws::lines_before_are_reached();
    if known_at(found_of(found, line.holds), line.place).is_some() {
        return Ok(false);
    }
    settle(alloc, code, found, answers, line.last)?;
    let given = given_at(code, found, answers, line);
    Ok(take(found, line, given))
}

/// Visits the lines once; whether something is found.
fn round(
    alloc: Global,
    code: &MethodCode,
    lines: &[Line],
    found: &mut KnownTable,
    answers: &mut Vec<Option<Answer>>,
) -> Result<bool, NoMemory>
    requires lines { All (IsLineOf code.now) lines.now }
    requires sized { AreSized code.now found.old answers.old.items }
    ensures { IfOk result (IsRound code.now lines.now (length lines.now) found.old found.new answers.old.items answers.new.items) }
{
    let mut grown = false;
    for line in lines {
        if visit(alloc, code, *line, found, answers)? {
            grown = true;
        }
    }
    Ok(grown)
}

/// Nothing is found yet.
fn nothing(alloc: Global, code: &MethodCode) -> Result<KnownTable, NoMemory>
    ensures empty { IfOk result (AreEmpty (length code.now.parts)) }
    ensures nodes { code.now.graph.nodes ≡ 2 * length code.now.parts }
{
    let places = code.places() as usize;
    Ok(KnownTable {
        ints: vec![in alloc; None; places]?,
        lengths: vec![in alloc; None; places]?,
    })
}

/// What lines push, of all that end at a place to which control comes from the last of them alone.
fn known_in(alloc: Global, code: &MethodCode) -> Result<KnownTable, NoMemory>
    ensures ints { IfOk result (λ found. (P : Program) (known : Known) (m : ℕ) → IsCodeOf P known m code.now
        → AreKnownInts P known m found.ints) }
    ensures lengths { IfOk result (λ found. (P : Program) (known : Known) (m : ℕ) → IsCodeOf P known m code.now
        → AreKnownLengths P known m found.lengths) }
{
    loop_rules::further::laws::last_writes_are_reached();
    loop_rules::further::laws::last_writes_exist();
    loop_rules::further::laws::lines_before_are_reached();
    loop_rules::further::laws::pushed_are_one();
    code_lines::laws::lines_follow_one_another();
    code_lines::laws::one_stands_before();
    opcodes::laws::starts_follow_one_another();
    let lines = lines(alloc, code)?;
    let mut found = nothing(alloc, code)?;
    let mut answers = vec![in alloc; None; code.places() as usize]?;
    while round(alloc, code, &lines, &mut found, &mut answers)? {}
    Ok(found)
}

/// By the place behind them, the ints that lines of the method push, and the lengths of the arrays that they push, where control comes
/// from the last of them alone. `arrays` has by place the lengths of the arrays of the fields that instructions of the method read; it
/// is empty where nothing is known of such fields.
pub fn known_ints(
    alloc: Global,
    method: &FlowMethod,
    sites: &MethodSites,
    arrays: &[Option<i32>],
) -> Result<KnownTable, NoMemory>
    ensures ints { IfOk result (λ found. (P : Program) (known : Known) (m : ℕ) → IsCodedOf P m method.now → AreSitesOf P known.constants m sites.now
        → AreNeverPut P known.constants → AreApart known → AreArraysRead P known m arrays.now → AreKnownInts P known m found.ints) }
    ensures lengths { IfOk result (λ found. (P : Program) (known : Known) (m : ℕ) → IsCodedOf P m method.now → AreSitesOf P known.constants m sites.now
        → AreNeverPut P known.constants → AreApart known → AreArraysRead P known m arrays.now → AreKnownLengths P known m found.lengths) }
{
    let code = MethodCode::new(alloc, method, sites, arrays)?;
    known_in(alloc, &code)
}
