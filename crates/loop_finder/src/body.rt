//! A method as its loops are searched: what its instructions do, its graph, and with what local variables begin in its loops.

ghost use Rattle.std.specs.Prelude.{◌≡◌};
ghost use Rattle.loop_finder.specs.Counting.{begin_in, is_begin_of};

use loop_acts::Act;
use loop_marks::Routes;
use std::marker::Model;

/// With what a local variable begins in the loop whose header has this number among the nodes of the method's graph.
#[derive(Clone, Copy)]
pub struct Beginning {
    pub header: u32,
    pub local: u32,
    pub value: i32,
}

/// With what local variables begin in loops.
#[derive(Drop)]
pub enum Beginnings {
    /// With the constants that are stored on the one way to a loop.
    Stored,
    /// With what is listed.
    Listed(Vec<Beginning>),
}

/// A method: what its instructions do, by place, its graph, for each node of this the one to which a search for last writes may skip back
/// from it, and with what local variables begin in its loops.
#[derive(Drop)]
pub struct MethodBody {
    pub acts: Vec<Act>,
    pub routes: Routes,
    pub backs: Vec<u32>,
    pub begins: Beginnings,
}

impl Model for MethodBody {
    ghost use Rattle.loop_finder.specs.Counting.{Body};
    ghost use Rattle.loop_finder.specs.Skipping.{AreBacksPast};

    ghost Value = { Body };

    ghost view = { λ b. record { acts = b.acts.items; graph = b.routes; begins = b.begins } };

    ghost invariant = { λ b. AreBacksPast b.acts.items b.routes b.backs.items };
}

/// Whether an entry is for this header and this local variable.
fn is_begin_of(begin: Beginning, header: u32, local: u32) -> bool
    ensures { result ≡ is_begin_of header local begin }
{
    begin.header == header && begin.local == local
}

/// The int with which the local variable begins in the loop with this header, by a list.
pub fn begin_in(begins: &[Beginning], header: u32, local: u32) -> Option<i32>
    ensures { result ≡ begin_in begins.now header local }
{
    for begin in begins {
        if is_begin_of(*begin, header, local) {
            return Some(begin.value);
        }
    }
    None
}
