//! Where an instruction leads without a raise (JVM Specification SE 8, 6.5).
ghost use Rattle.std.specs.Prelude.{◌≡◌, ℕ, ◌<◌, true, length, Ok, OnOk, Some, slice_get, pos, ◌+ℤ◌};
ghost use Rattle.opcodes.specs.Instruction.{decoded};
ghost use Rattle.opcodes.specs.Row.{row_of};
ghost use Rattle.opcodes.specs.Target.{targets_of};
ghost use Rattle.method_flow.specs.Flow.{StaysInCode};
ghost use Rattle.flow_graph.specs.Edges.{InstructionLeads, IsEdgeFrom};
ghost use Rattle.flow_graph.specs.Growing.{Grows};
ghost use Rattle.flow_graph.specs.Naming.{AreNear, IsNamed, IsNamedBy, IsNextBy, case_places, goes_on, goes_to_targets};

use base::NoMemory;
use opcodes::{Instr, Kind, case, kind, target};

/// Adds the edge from the instruction at `pc` to the one at a place; a place below 0 is none.
fn add_edge(pc: u32, place: i64, edges: &mut Vec<(u32, u32)>) -> Result<(), NoMemory>
    requires source { pc < 65536 }
    requires target { (q : ℕ) → place ≡ pos q → q < 65536 }
    ensures { OnOk result (Grows edges.old.items edges.new.items (IsEdgeFrom pc (λ q. place ≡ pos q))) }
{
    if let Ok(target) = u32::try_from(place) {
        edges.push((2 * pc, 2 * target))?;
    }
    Ok(())
}

/// The place at an offset from another.
fn place_at(pc: u32, offset: i32) -> i64
    ensures { result ≡ pos pc +ℤ offset }
{
    i64::from(pc) + i64::from(offset)
}

/// The place of a case of a switch.
fn case_place(code: &[u8], pc: u32, instr: &Instr, index: u32) -> i64
    requires is { decoded code.now pc ≡ Ok instr.now }
    requires short { length code.now < 65536 }
    requires one { index < instr.now.count }
    ensures { slice_get (case_places code.now pc instr.now) index ≡ Some result }
{
    let case = case(code, pc, instr, index);
    place_at(pc, case.offset)
}

/// Adds the edges to the cases of a switch.
fn add_cases(
    code: &[u8],
    pc: u32,
    instr: &Instr,
    edges: &mut Vec<(u32, u32)>,
) -> Result<(), NoMemory>
    requires is { decoded code.now pc ≡ Ok instr.now }
    requires short { length code.now < 65536 }
    requires source { pc < 65536 }
    requires targets { AreNear (case_places code.now pc instr.now) }
    ensures { OnOk result (Grows edges.old.items edges.new.items (IsEdgeFrom pc (IsNamed (case_places code.now pc instr.now)))) }
{
    for index in 0..instr.count {
        let place = case_place(code, pc, instr, index);
        add_edge(pc, place, edges)?;
    }
    Ok(())
}

/// Adds the edges to the places that an instruction names.
fn add_named(
    code: &[u8],
    pc: u32,
    instr: &Instr,
    edges: &mut Vec<(u32, u32)>,
) -> Result<(), NoMemory>
    requires is { decoded code.now pc ≡ Ok instr.now }
    requires short { length code.now < 65536 }
    requires source { pc < 65536 }
    requires targets { AreNear (targets_of code.now pc instr.now) }
    ensures { OnOk result (Grows edges.old.items edges.new.items (IsEdgeFrom pc (IsNamed (targets_of code.now pc instr.now)))) }
{
    match target(pc, instr) {
        Some(place) => {
            add_edge(pc, place, edges)?;
            add_cases(code, pc, instr, edges)
        }
        None => add_cases(code, pc, instr, edges),
    }
}

/// Whether control may go from an instruction of this kind to the places that it names.
fn leads_to_targets(kind: Kind) -> bool
    ensures { result ≡ goes_to_targets kind }
{
    matches!(kind, Kind::Branch | Kind::Jump | Kind::Switch)
}

/// Whether control may go from an instruction of this kind to the next one.
fn leads_on(kind: Kind) -> bool
    ensures { result ≡ goes_on kind }
{
    !matches!(kind, Kind::Jump | Kind::Switch | Kind::Return | Kind::Throw)
}

/// Adds the edges to the places that an instruction names, if control may go to them.
fn add_targets(
    code: &[u8],
    pc: u32,
    instr: &Instr,
    edges: &mut Vec<(u32, u32)>,
) -> Result<(), NoMemory>
    requires is { decoded code.now pc ≡ Ok instr.now }
    requires short { length code.now < 65536 }
    requires source { pc < 65536 }
    requires targets { goes_to_targets (row_of instr.now.op).kind ≡ true → AreNear (targets_of code.now pc instr.now) }
    ensures { OnOk result (Grows edges.old.items edges.new.items (IsEdgeFrom pc (IsNamedBy (row_of instr.now.op).kind (targets_of code.now pc instr.now)))) }
{
    if leads_to_targets(kind(instr.op)) {
        add_named(code, pc, instr, edges)
    } else {
        Ok(())
    }
}

/// Adds the edge to the next instruction, if control may go on to it.
fn add_next(pc: u32, kind: Kind, next: u32, edges: &mut Vec<(u32, u32)>) -> Result<(), NoMemory>
    requires source { pc < 65536 }
    requires next { goes_on kind ≡ true → next < 65536 }
    ensures { OnOk result (Grows edges.old.items edges.new.items (IsEdgeFrom pc (IsNextBy kind next))) }
{
    if leads_on(kind) {
        edges.push((2 * pc, 2 * next))?;
    }
    Ok(())
}

/// Adds the edges to where the instruction at `pc` leads.
pub fn add_leads(
    code: &[u8],
    pc: u32,
    instr: &Instr,
    edges: &mut Vec<(u32, u32)>,
) -> Result<(), NoMemory>
    requires is { decoded code.now pc ≡ Ok instr.now }
    requires stays { StaysInCode code.now pc }
    requires short { length code.now < 65536 }
    requires source { pc < length code.now }
    ensures { OnOk result (Grows edges.old.items edges.new.items (IsEdgeFrom pc (InstructionLeads code.now pc instr.now))) }
{
    opcodes::laws::instructions_end_within();
    opcodes::laws::starts_follow_one_another();
    add_targets(code, pc, instr, edges)?;
    add_next(pc, kind(instr.op), pc + instr.length, edges)
}
