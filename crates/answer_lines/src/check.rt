//! The lines of certificates that were checked.
ghost use Rattle.std.specs.Prelude.{◌≡◌, ◌++◌, ◌/◌, ◌%◌, [], ◌∷◌, codes, decimal, false};
ghost use Rattle.std.specs.List.{concat};
ghost use Rattle.outside.specs.Outside.{HasCause};
ghost use Rattle.answer_lines.specs.Said.{Said};
ghost use Rattle.certificates.specs.CertLines.{node_text};
ghost use Rattle.answer_lines.specs.AnalysisLines.{held_parts, fault_parts, price_parts};

use crate::{Piece, say_pieces};
use bound_rules::CheckFault;
use outside::{Failed, Sink};

/// Puts the line of a certificate that holds of the method of this name, with its bound in cycles, or `never` where the method never ends.
pub fn say_held<O: Sink>(sink: &mut O, name: &[u8], bound: Option<u64>) -> Result<(), Failed>
    ensures said { Said false (concat (held_parts name.now bound)) (O.held sink.old) (O.held sink.new) (O.faults sink.old) (O.faults sink.new) result }
    ensures cause { HasCause (O.faults sink.old) (O.faults sink.new) result }
{
    let number = match bound {
        Some(cycles) => Piece::Number(cycles as u128),
        None => Piece::Text(b"never"),
    };
    say_pieces(
        sink,
        &[
            Piece::Text(b"holds "),
            Piece::Text(name),
            Piece::Text(b" "),
            number,
            Piece::Text(b"\n"),
        ],
    )
}

/// Puts the line of the first condition of a certificate that fails, with the name of the method in whose section it does. Nothing is
/// put of want of memory.
pub fn say_fault<O: Sink>(sink: &mut O, fault: CheckFault, name: &[u8]) -> Result<(), Failed>
    ensures said { Said false (concat (fault_parts fault name.now)) (O.held sink.old) (O.held sink.new) (O.faults sink.old) (O.faults sink.new) result }
    ensures cause { HasCause (O.faults sink.old) (O.faults sink.new) result }
{
    match fault {
        CheckFault::Missing(_) => say_method(sink, b"check: missing ", name),
        CheckFault::Member(_, node) => say_node(sink, b"check: member ", name, node),
        CheckFault::Edge(_, from, to) => say_edge(sink, name, from, to),
        CheckFault::Exit(_, node) => say_node(sink, b"check: exit ", name, node),
        CheckFault::Region(_) => say_method(sink, b"check: region ", name),
        CheckFault::NoMemory => Ok(()),
    }
}

/// Puts the line of the first price of which no fact is given, at a node of the method of this name.
pub fn say_price_fault<O: Sink>(sink: &mut O, name: &[u8], node: u32) -> Result<(), Failed>
    ensures said { Said false (concat (price_parts name.now node)) (O.held sink.old) (O.held sink.new) (O.faults sink.old) (O.faults sink.new) result }
    ensures cause { HasCause (O.faults sink.old) (O.faults sink.new) result }
{
    say_node(sink, b"check: price ", name, node)
}

/// Puts a label and the name of a method.
fn say_method<'a, O: Sink>(sink: &mut O, label: &'a [u8], name: &'a [u8]) -> Result<(), Failed>
    ensures said { Said false (concat (label.now ∷ name.now ∷ codes "\n" ∷ [])) (O.held sink.old) (O.held sink.new) (O.faults sink.old)
        (O.faults sink.new) result }
    ensures cause { HasCause (O.faults sink.old) (O.faults sink.new) result }
{
    say_pieces(
        sink,
        &[Piece::Text(label), Piece::Text(name), Piece::Text(b"\n")],
    )
}

/// What stands behind the place of a node: `r` where it is a raise step.
fn mark(node: u32) -> &'static [u8]
    ensures { node_text node ≡ decimal (node / 2) ++ result.now }
{
    if node % 2 == 1 { b"r" } else { b"" }
}

/// Puts a label, the name of a method and a node of it.
fn say_node<'a, O: Sink>(
    sink: &mut O,
    label: &'a [u8],
    name: &'a [u8],
    node: u32,
) -> Result<(), Failed>
    ensures said { Said false (concat (label.now ∷ name.now ∷ codes " " ∷ node_text node ∷ codes "\n" ∷ [])) (O.held sink.old) (O.held sink.new)
        (O.faults sink.old) (O.faults sink.new) result }
    ensures cause { HasCause (O.faults sink.old) (O.faults sink.new) result }
{
    say_pieces(
        sink,
        &[
            Piece::Text(label),
            Piece::Text(name),
            Piece::Text(b" "),
            Piece::Number((node / 2) as u128),
            Piece::Text(mark(node)),
            Piece::Text(b"\n"),
        ],
    )
}

/// Puts the line of an edge between two nodes of a method.
fn say_edge<O: Sink>(sink: &mut O, name: &[u8], from: u32, to: u32) -> Result<(), Failed>
    ensures said { Said false (concat (codes "check: edge " ∷ name.now ∷ codes " " ∷ node_text from ∷ codes " " ∷ node_text to ∷ codes "\n" ∷ []))
        (O.held sink.old) (O.held sink.new) (O.faults sink.old) (O.faults sink.new) result }
    ensures cause { HasCause (O.faults sink.old) (O.faults sink.new) result }
{
    say_pieces(
        sink,
        &[
            Piece::Text(b"check: edge "),
            Piece::Text(name),
            Piece::Text(b" "),
            Piece::Number((from / 2) as u128),
            Piece::Text(mark(from)),
            Piece::Text(b" "),
            Piece::Number((to / 2) as u128),
            Piece::Text(mark(to)),
            Piece::Text(b"\n"),
        ],
    )
}
