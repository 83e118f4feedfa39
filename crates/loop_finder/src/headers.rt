//! Where the loops of a method are headed.

ghost use Rattle.std.specs.Prelude.{◌≡◌, ◌<◌, ◌/◌, length, map, All, IfOk, slice_index};
ghost use Rattle.loop_nest.specs.Nest.{headers_of};

use base::NoMemory;
use loop_nest::loops::Loop;
use std::alloc::Global;

/// Whether each cycle of a method's graph is a loop with one entry, and where its loops are headed.
#[derive(Drop)]
pub enum LoopHeaders {
    /// The reduction leaves these nodes of the method's graph beside the first instruction, rising.
    Irreducible(Vec<u32>),
    /// It leaves none, and the instructions at these places head the loops, rising.
    Reducible(Vec<u32>),
}

/// The places of the instructions that head these loops, by the other numbers of the headers.
pub fn header_places(alloc: Global, loops: &[Loop], nodes: &[u32]) -> Result<Vec<u32>, NoMemory>
    requires { All (λ l. l.header < length nodes.now) loops.now }
    ensures { IfOk result (λ places. places.items ≡ map (λ h. slice_index nodes.now h / 2) (headers_of loops.now)) }
{
    let mut places = Vec::with_capacity(alloc, loops.len())?;
    for l in loops {
        places.push(nodes[l.header() as usize] / 2)?;
    }
    Ok(places)
}
