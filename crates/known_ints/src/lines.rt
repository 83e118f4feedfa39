//! The places where lines end that push an int or an array, as far as one instruction tells it.

ghost use Rattle.std.specs.Prelude.{◌≡◌, ◌↔◌, ℕ, ◌<◌, length, IfOk, IfSome, MatchOption, Some};
ghost use Rattle.bytecode_model.specs.Program.{Program};
ghost use Rattle.code_scan.specs.Scans.{line_before};
ghost use Rattle.loop_rules.specs.Further.Found.{IsFollowing};
ghost use Rattle.loop_rules.specs.Further.Known.{Known};
ghost use Rattle.known_ints.specs.Code.{IsCodeOf};
ghost use Rattle.known_ints.specs.Rounds.{AreLines, GivesOnly, IsLineOf, gives_of};

use crate::code::MethodCode;
use crate::knowing::Holds;
use crate::parts::Part;
use base::NoMemory;
use std::alloc::Global;

/// Where lines end that may push an int, or an array.
#[derive(Clone, Copy)]
pub struct Line {
    /// The place behind the last of them, to which control comes from there alone.
    pub place: u32,
    /// The place of the last of them.
    pub last: u32,
    pub holds: Holds,
}

/// Of which sort it is what lines push of which the last one does so.
fn gives_of(part: Part) -> Option<Holds>
    ensures { result ≡ gives_of part }
{
    match part {
        Part::Int(_) | Part::Field(_) | Part::Load(_) | Part::Length | Part::Compute(_) => {
            Some(Holds::AnInt)
        }
        Part::NewArray
        | Part::LoadReference(_)
        | Part::StaticArray(_)
        | Part::FieldArray(_)
        | Part::StoreNumber => Some(Holds::AnArray),
        _ => None,
    }
}

/// The place of the instruction directly before a place.
fn before_within(code: &MethodCode, place: u32) -> Option<u32>
    ensures line { (P : Program) (known : Known) (m : ℕ) → IsCodeOf P known m code.now → result ≡ line_before code.now.scan place }
    ensures within { IfSome result (λ last. last < length code.now.parts) }
{
    opcodes::laws::starts_follow_one_another();
    let last = code.before(place)?;
    let places = code.places();
    if last < places { Some(last) } else { None }
}

/// The place of the line from which alone control comes to a place.
fn followed(code: &MethodCode, place: u32) -> Option<u32>
    ensures line { (P : Program) (known : Known) (m last : ℕ) → IsCodeOf P known m code.now
        → (result ≡ Some last) ↔ (IsFollowing P m place × (line_before code.now.scan place ≡ Some last)) }
    ensures within { IfSome result (λ last. last < length code.now.parts) }
{
    if code.is_named(place) {
        return None;
    }
    if !code.is_reached(place) {
        return None;
    }
    before_within(code, place)
}

/// The lines that end at a place.
fn line_at(code: &MethodCode, place: u32) -> Option<Line>
    requires { place < length code.now.parts }
    ensures { MatchOption result (GivesOnly code.now place (λ h. ⊥)) (λ line. (line.place ≡ place) × IsLineOf code.now line
        × GivesOnly code.now place (λ h. line.holds ≡ h)) }
{
    let last = followed(code, place)?;
    let holds = gives_of(code.part(last))?;
    Some(Line { place, last, holds })
}

/// The lines of the method, from the first to the last and back: so what follows of one another is found soon, in whichever order the
/// lines stand.
pub fn lines(alloc: Global, code: &MethodCode) -> Result<Vec<Line>, NoMemory>
    ensures { IfOk result (λ lines. AreLines code.now (length code.now.parts) lines.items) }
{
    let mut lines = Vec::new(alloc);
    for place in 0..code.places() {
        if let Some(line) = line_at(code, place) {
            lines.push(line)?;
        }
    }
    for index in (0..lines.len()).rev() {
        let line = lines[index];
        lines.push(line)?;
    }
    Ok(lines)
}
