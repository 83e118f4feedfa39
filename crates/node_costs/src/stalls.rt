//! What it takes to load methods into the method cache (JOP Reference Handbook, "Method Cache"), in cycles.
ghost use Rattle.std.specs.Prelude.{◌≡◌, ◌≤◌, ◌<◌, ◌^◌, ℕ, All, length, sum_by};
ghost use Rattle.method_cache.specs.Regions.Region.{AreDistinct};
ghost use Rattle.bytecode_model.specs.Program.{Program};
ghost use Rattle.method_flow.specs.Flow.{IsCodedOf, IsFlowOf};
ghost use Rattle.method_flow.specs.Regions.{load, loads, IsGreatestLoad};
ghost use Rattle.method_flow.specs.Costs.{params, IsPrintedOf};
ghost use Rattle.micro_flow.specs.Costs.{IsGreatestInvoke};
ghost use Rattle.node_costs.specs.Costs.{code_load, method_load};

use method_flow::{FlowMethod, FlowProgram, Timing};
use micro_flow::{CostParams, greatest_invoke_cost};

/// The cycles that the load of a method stalls, where a read waits `read` cycles.
pub fn load(m: &FlowMethod, read: u32) -> u64
    requires { read ≤ 63 }
    ensures of_code { result ≡ code_load read m.now.code }
    ensures of_program { (P : Program) (n : ℕ) → IsCodedOf P n m.now → result ≡ load P read n }
    ensures small { result < 2 ^ 21 }
{
    let words = m.code().len().div_ceil(4) as u64;
    4 + words * (2 + u64::from(read))
}

/// The load of the method of this number.
fn load_at(f: &FlowProgram, m: u32, read: u32) -> u64
    requires read { read ≤ 63 }
    requires method { m < length f.now.methods }
    ensures load { result ≡ method_load read f.now.methods m }
    ensures small { result < 2 ^ 21 }
{
    load(f.method(m), read)
}

/// The cycles that the loads of these methods stall together.
pub fn loads(f: &FlowProgram, methods: &[u32], read: u32) -> u64
    requires read { read ≤ 63 }
    requires within { All (λ m. m < length f.now.methods) methods.now }
    requires distinct { AreDistinct methods.now }
    ensures of_table { result ≡ sum_by (method_load read f.now.methods) methods.now }
    ensures of_program { (P : Program) → IsFlowOf P f.now → result ≡ loads P read methods.now }
{
    // Its clause is for the proof alone.
    let _ = f.method_count();
    let mut cycles = 0;
    for m in methods {
        cycles += load_at(f, *m, read);
    }
    cycles
}

/// The greatest of the loads of all methods with code.
pub fn greatest_load(f: &FlowProgram, read: u32) -> u64
    requires { read ≤ 63 }
    ensures greatest { (P : Program) → IsFlowOf P f.now → IsGreatestLoad P read result }
    ensures small { result < 2 ^ 21 }
{
    // Its clause is for the proof alone.
    let _ = f.boot();
    let mut greatest = load_at(f, 0, read);
    for m in 1..f.method_count() {
        greatest = greatest.max(load_at(f, m, read));
    }
    greatest
}

/// The cycles that the dearest of the four invokes takes at most, where its look-ups hit.
fn greatest_invoke(t: Timing) -> u64
    requires read { t.read ≤ 63 }
    requires write { t.write ≤ 63 }
    ensures { IsGreatestInvoke (params t 0 0) result }
{
    greatest_invoke_cost(CostParams {
        r: t.read,
        w: t.write,
        pairs: 0,
        entries: 0,
    })
}

/// What is printed of a method whose number with all loads is `full`: before it the dearest invoke, and after it the greatest load,
/// of the method that control comes back to. A method that cannot end has none.
pub fn printed(f: &FlowProgram, t: Timing, full: Option<u64>) -> Option<u128>
    requires read { t.read ≤ 63 }
    requires write { t.write ≤ 63 }
    ensures { (P : Program) → IsFlowOf P f.now → IsPrintedOf P t full result }
{
    let around = u128::from(greatest_invoke(t)) + u128::from(greatest_load(f, t.read));
    match full {
        Some(full) => Some(around + u128::from(full)),
        None => None,
    }
}
