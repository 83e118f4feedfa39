//! What an opcode costs: the greatest number of cycles that a walk of the microcode takes from its entry
//! to the next boundary, where each look-up of a method hits.
#![tactic(auto)]

ghost use Rattle.std.specs.Prelude.{◌≡◌, ◌<◌, ◌≤◌};
ghost use Rattle.micro_flow.specs.Walk.{IsCost, IsRaiseCost};
ghost use Rattle.micro_flow.specs.Costs.{total, IsGreatestInvoke};

pub mod laws;
mod price;
mod table;

use opcodes::mnemonics::{INVOKEINTERFACE, INVOKESPECIAL, INVOKESTATIC, INVOKEVIRTUAL};
use price::RowCost;
use table::{RAISE, cost_of};

/// What a cost depends on.
#[derive(Clone, Copy)]
pub struct CostParams {
    /// The cycles that a read waits, at most 63.
    pub r: u32,
    /// The cycles that a write waits, at most 63.
    pub w: u32,
    /// The pairs of the instruction, where it is a `lookupswitch`.
    pub pairs: u32,
    /// The entries of the method's exception table.
    pub entries: u32,
}

/// The cycles that an opcode takes, at most, where its look-ups hit.
pub fn cost(op: u8, p: CostParams) -> u64
    requires r { p.r ≤ 63 }
    requires w { p.w ≤ 63 }
    ensures { IsCost op p result }
{
    cost_of(op).total(p)
}

/// The cycles that a step of the raise routine takes, at most, where its look-ups hit.
pub fn raise_cost(p: CostParams) -> u64
    requires r { p.r ≤ 63 }
    requires w { p.w ≤ 63 }
    ensures { IsRaiseCost p result }
{
    RAISE.total(p)
}

/// The greatest of the costs of `invokevirtual`, `invokespecial`, `invokestatic` and `invokeinterface`.
pub fn greatest_invoke_cost(p: CostParams) -> u64
    requires r { p.r ≤ 63 }
    requires w { p.w ≤ 63 }
    ensures { IsGreatestInvoke p result }
{
    cost(INVOKEVIRTUAL, p)
        .max(cost(INVOKESPECIAL, p))
        .max(cost(INVOKESTATIC, p))
        .max(cost(INVOKEINTERFACE, p))
}

#[cfg(test)]
mod tests;
