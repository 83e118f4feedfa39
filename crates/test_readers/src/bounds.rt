//! Bounds of loops.
ghost use Rattle.std.specs.Prelude.{ℕ, ◌≤◌, length};
ghost use Rattle.base.specs.Sizes.{longest_file};

use bound_texts::loops::{Bounds, BoundsFault, read_bounds};
use std::alloc::AllocError;
use std::io;

/// Shows the bound of a loop.
fn show_bound(rt: &HostRuntime, bounds: &Bounds, name: &[u8], pc: u32) -> io::Result<()> {
    match bounds.bound(name, pc) {
        Some(bound) => print!(rt; " {bound}"),
        None => print!(rt; " -"),
    }
}

/// Shows the bounds at the places 0 and 4 of the methods `a` and `b`.
fn show_some(rt: &HostRuntime, bounds: &Bounds) -> io::Result<()> {
    print!(rt; "bounds")?;
    show_bound(rt, bounds, b"a", 0)?;
    show_bound(rt, bounds, b"a", 4)?;
    show_bound(rt, bounds, b"b", 0)?;
    show_bound(rt, bounds, b"b", 4)?;
    println!(rt;)
}

/// Shows what a text of bounds is read as.
pub fn show_bounds(rt: &HostRuntime, text: &[u8]) -> io::Result<()>
    requires { length text.now ≤ longest_file }
{
    match read_bounds(rt.alloc(), text) {
        Ok(bounds) => show_some(rt, &bounds),
        Err(BoundsFault::Line(line)) => println!(rt; "bad line={line}"),
        Err(BoundsFault::Twice(line)) => println!(rt; "twice line={line}"),
        Err(BoundsFault::NoMemory) => Err(io::Error::from(AllocError)),
    }
}
