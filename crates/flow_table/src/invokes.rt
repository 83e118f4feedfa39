//! The invokes of a method (JVM Specification SE 8, 6.5.invokestatic, 6.5.invokespecial, 6.5.invokevirtual, 6.5.invokeinterface).
ghost use Rattle.std.specs.Prelude.{◌≡◌, ◌↔◌, ℕ, ◌<◌, ◌≤◌, ◌^◌, length, IsTrue, IfOk, IfSome};
ghost use Rattle.base.specs.Sizes.{longest_file};
ghost use Rattle.opcodes.specs.Start.{IsStart};
ghost use Rattle.program_tables.specs.Meanings.{operand_seen};
ghost use Rattle.program_tables.specs.Numbers.{methods_by_number};
ghost use Rattle.program_tables.specs.Resolved.{resolved};
ghost use Rattle.flow_table.specs.Invokes.{IsCodeOf, invoked_as, invoked_at, list_number, call_of, call_at, calls_in};

use base::NoMemory;
use method_flow::Call;
use method_flow::laws::calls_are_invokes;
use opcodes::laws::starts_follow_one_another;
use opcodes::starts;
use program_tables::Operand;
use resolved_program::Program;
use std::alloc::Global;

/// What an invoke names.
#[derive(Clone, Copy)]
pub(crate) enum Invoked {
    /// The method that runs, by its number.
    Fixed(u32),
    /// The method for which one is selected by the class of the receiver.
    Resolved(u32),
}

/// What an instruction with this opcode invokes, which names this.
fn invoked_as(op: u8, operand: Operand) -> Option<Invoked>
    ensures { result ≡ invoked_as op (operand_seen operand) }
{
    match operand {
        Operand::Method(_, method) => {
            if op == 182 || op == 185 {
                Some(Invoked::Resolved(method))
            } else if op == 183 || op == 184 {
                Some(Invoked::Fixed(method))
            } else {
                None
            }
        }
        _ => None,
    }
}

/// What the instruction at a place of a method invokes.
fn invoked_at(program: &Program, method: u32, place: u32) -> Option<Invoked>
    requires { method < length (methods_by_number program.now) }
    ensures { result ≡ invoked_at (resolved program.now) method place }
{
    calls_are_invokes();
    let x = program.instruction(method, place)?;
    invoked_as(x.instr.op, x.operand)
}

/// An invoke, with the number of the list of what it may run.
fn call_of(place: u32, invoked: Invoked, coded: u32) -> Call
    requires { list_number coded invoked < 2 ^ 32 }
    ensures { result ≡ call_of coded place invoked }
{
    let targets = match invoked {
        Invoked::Fixed(method) => method,
        Invoked::Resolved(method) => coded + method,
    };
    Call { place, targets }
}

/// Whether the opcode is one of the invokes that name a method.
fn is_invoke(op: u8) -> bool
    ensures { IsTrue result ↔ ((182 ≤ op) × (op ≤ 185)) }
{
    182 <= op && op <= 185
}

/// The invoke at a place of a method of this code, if one stands there.
fn call_at(program: &Program, method: u32, code: &[u8], place: u32, coded: u32) -> Option<Call>
    requires method { method < length (methods_by_number program.now) }
    requires code { IsCodeOf (resolved program.now) method code.now }
    requires inside { place < length code.now }
    requires few { IfSome (invoked_at (resolved program.now) method place) (λ i. list_number coded i < 2 ^ 32) }
    ensures { result ≡ call_at (resolved program.now) coded method place }
{
    calls_are_invokes();
    if !is_invoke(code[place as usize]) {
        return None;
    }
    match invoked_at(program, method, place) {
        Some(invoked) => Some(call_of(place, invoked, coded)),
        None => None,
    }
}

/// The invokes of a method, rising by place. `coded` methods have code.
pub(crate) fn calls_of(
    alloc: Global,
    program: &Program,
    method: u32,
    code: &[u8],
    coded: u32,
) -> Result<Vec<Call>, NoMemory>
    requires method { method < length (methods_by_number program.now) }
    requires code { IsCodeOf (resolved program.now) method code.now }
    requires short { length code.now ≤ longest_file }
    requires few { (p : ℕ) → IsStart code.now p → IfSome (invoked_at (resolved program.now) method p) (λ i. list_number coded i < 2 ^ 32) }
    ensures { IfOk result (λ calls. calls.items ≡ calls_in (resolved program.now) coded method code.now) }
{
    starts_follow_one_another();
    let starts = starts(alloc, code)?;
    let mut calls = Vec::new(alloc);
    for place in &starts {
        if let Some(call) = call_at(program, method, code, *place, coded) {
            calls.push(call)?;
        }
    }
    Ok(calls)
}
