//! The bounds of the class's loops.
ghost use Rattle.std.specs.Prelude.{◌≡◌, ◌≤◌, ◌++◌, IfOk, OnOk};
ghost use Rattle.work_gen.specs.Work.{bound_line, bounds_text};

use ascii_text::put_u64;
use base::NoMemory;
use std::alloc::Global;

/// Appends the line of an adder's loop.
#[tactic(auto, unfolding(crate::specs::Work::bound_line))]
fn put_bound(text: &mut Vec<u8>, k: u32) -> Result<(), NoMemory>
    ensures { OnOk result (text.new.items ≡ text.old.items ++ bound_line k) }
{
    text.extend_from_slice(b"W.m")?;
    put_u64(text, k as u64)?;
    text.extend_from_slice(b"(I)I 2 loop<=")?;
    put_u64(text, (k % 8 + 1) as u64)?;
    text.push(b'\n')?;
    Ok(())
}

/// The text of the bounds of the loops of the class with this number of adders: `W.mK(I)I 2 loop<=T`, a line an adder.
#[tactic(auto, unfolding(crate::specs::Work::bounds_text))]
pub fn work_bounds(alloc: Global, n: u32) -> Result<Vec<u8>, NoMemory>
    requires some { 1 ≤ n }
    requires few { n ≤ 1000 }
    ensures { IfOk result (λ text. text.items ≡ bounds_text n) }
{
    let mut text = Vec::new(alloc);
    for k in 1..n + 1 {
        put_bound(&mut text, k)?;
    }
    Ok(text)
}
