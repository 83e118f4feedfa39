//! The method main of the class.
ghost use Rattle.std.specs.Prelude.{◌≡◌, ◌≤◌, [], ◌∷◌, filter, IfOk};
ghost use Rattle.std.specs.List.{flat_map};
ghost use Rattle.work_gen.specs.Work.{call_of, is_called, called, main_end, main_pieces, main_method};

use crate::class::{bytes_in, call_of};
use base::NoMemory;
use byteorder::{BigEndian, ByteOrder};
use class_making::parts::{Room, method, method_item, text};
use class_making::{MethodPlan, Piece};
use std::alloc::Global;

/// The flags of main: public and static.
const PUBLIC_STATIC: u16 = 0x0009;

/// The call of an adder, if main calls it.
fn call_from_main(alloc: Global, n: u32, k: u32) -> Result<Vec<Piece>, NoMemory>
    ensures { IfOk result (λ pieces. pieces.items ≡ flat_map call_of (filter (is_called n) (k ∷ []))) }
{
    if k % 10 == 0 || k == n {
        call_of(alloc, k)
    } else {
        Ok(Vec::new(alloc))
    }
}

/// The calls of the last adder of each ten, and of the last of all.
fn calls(alloc: Global, n: u32) -> Result<Vec<Piece>, NoMemory>
    requires { n ≤ 1000 }
    ensures { IfOk result (λ pieces. pieces.items ≡ flat_map call_of (called n)) }
{
    let mut pieces = Vec::new(alloc);
    for k in 1..n + 1 {
        pieces.append(&mut call_from_main(alloc, n, k)?)?;
    }
    Ok(pieces)
}

/// The call that writes the sum, and the return.
fn main_end(alloc: Global) -> Result<Vec<Piece>, NoMemory>
    ensures { IfOk result (λ pieces. pieces.items ≡ main_end) }
{
    let write = method_item(alloc, text(alloc, "jop/Io")?, "write", "(I)V")?;
    Ok(vec![in alloc; Piece::Byte(0xB8), Piece::Index(write), Piece::Byte(0xB1)]?)
}

#[tactic(auto, unfolding(crate::specs::Work::main_pieces))]
fn main_pieces(alloc: Global, n: u32) -> Result<Vec<Piece>, NoMemory>
    requires { n ≤ 1000 }
    ensures { IfOk result (λ pieces. pieces.items ≡ main_pieces n) }
{
    let mut push = [0x11; 3];
    BigEndian::write_u16(&mut push[1..], n as u16);
    let mut pieces = bytes_in(alloc, &push)?;
    pieces.append(&mut calls(alloc, n)?)?;
    pieces.append(&mut main_end(alloc)?)?;
    Ok(pieces)
}

#[tactic(auto, unfolding(crate::specs::Work::main_method))]
pub(crate) fn main_method(alloc: Global, n: u32) -> Result<MethodPlan, NoMemory>
    requires { n ≤ 1000 }
    ensures { IfOk result (λ method. method ≡ main_method n) }
{
    let pieces = main_pieces(alloc, n)?;
    let room = Room {
        max_stack: 1,
        max_locals: 1,
    };
    method(
        alloc,
        PUBLIC_STATIC,
        "main",
        "([Ljava/lang/String;)V",
        room,
        pieces,
    )
}
