//! The loops of a method, and their lines.
ghost use Rattle.std.specs.Prelude.{◌≡◌, ℕ, ◌++◌, List, Some, IsSome, IfOk, OnOk};
ghost use Rattle.std.specs.List.Sorted.{IsStrictlyIncreasing};
ghost use Rattle.bytecode_model.specs.Program.{body_of};
ghost use Rattle.flow_graph.specs.declared.numbering.Compact.{Compact};
ghost use Rattle.program_tables.specs.Resolved.{resolved};
ghost use Rattle.bound_causes.specs.Shapes.{IsCompactShape, IsShape};
ghost use Rattle.loop_finder.specs.Headers.{AreHeadersIn, AreHeadersOf};
ghost use Rattle.source_headers.specs.Found.{AreRising};
ghost use Rattle.source_places.specs.Methods.Sources.{source_at, IsFileOf};
ghost use Rattle.source_places.specs.Methods.Told.{source_by};
ghost use Rattle.bound_report.specs.Contents.Rows.{IsCodePlace};
ghost use Rattle.source_headers.specs.Told.{headed_places, has_no_loops, headers_by, lines_by, IsToldOf, IsToldPlace};

use crate::found::{from_place, number_at};
use crate::texts::{put_header, put_irreducible};
use base::NoMemory;
use bound_causes::Shape;
use bound_causes::laws::{compact_keeps_loops, method_graphs_are_reached};
use bound_rules::laws::{graphs_are_one, headers_are_instructions};
use bound_texts::sources::SourceBounds;
use compact_walks::laws::{ends_are_one, graphs_are_moved, parts_are_sound};
use loop_finder::LoopHeaders;
use loop_rules::FoundLoop;
use program_tables::laws::methods_stand_by_number;
use resolved_program::Program;
use source_places::methods::{MethodSource, source_at, source_of};
use std::alloc::Global;

/// The shape of a method's loops, and the lines of its source where it has some.
#[derive(Drop)]
pub struct MethodLoops {
    pub shape: Shape,
    pub source: Option<MethodSource>,
}

/// A method, and its name as it is written.
#[derive(Clone, Copy)]
pub struct Method<'a> {
    pub number: u32,
    pub name: &'a [u8],
}

/// The places of the instructions that head loops.
pub(crate) fn headed_places(shape: &Shape) -> &[u32]
    ensures { result.now ≡ headed_places shape.now }
{
    match shape {
        Shape::Irreducible(_) => &[],
        Shape::Reducible(places) => places,
    }
}

/// Whether a method of this shape has no loops.
fn has_no_loops(shape: &Shape) -> bool
    ensures { result ≡ has_no_loops shape.now }
{
    match shape {
        Shape::Irreducible(_) => false,
        Shape::Reducible(places) => places.is_empty(),
    }
}

/// The source of a method of this shape, where it has loops.
fn source_where(
    alloc: Global,
    program: &Program,
    number: u32,
    shape: &Shape,
) -> Result<Option<MethodSource>, NoMemory>
    requires coded { IsSome (body_of (resolved program.now) number) }
    requires shape { IsShape (resolved program.now) number shape.now }
    ensures file { IfOk result (λ source. (s : MethodSource) → source ≡ Some s → IsFileOf program.now s.file.items) }
    ensures source { IfOk result (λ source. (p : ℕ) → IsToldPlace (resolved program.now) number shape.now p
        → source_by source p ≡ source_at program.now number p) }
    ensures within { IfOk result (λ source. (p : ℕ) (s : List ℕ × ℕ) → source_by source p ≡ Some s → IsCodePlace (resolved program.now) number p) }
{
    methods_stand_by_number();
    if has_no_loops(shape) {
        return Ok(None);
    }
    source_of(alloc, program, number)
}

/// The shape of a method's loops, by their headers.
fn shape_by(alloc: Global, headers: &LoopHeaders) -> Result<Shape, NoMemory>
    ensures { IfOk result (λ s. (c : Compact) → AreHeadersIn c headers.now → IsCompactShape c.graph c.nodes s) }
{
    match headers {
        LoopHeaders::Irreducible(nodes) => {
            Ok(Shape::Irreducible(Vec::from_slice(alloc, nodes)?))
        }
        LoopHeaders::Reducible(places) => Ok(Shape::Reducible(Vec::from_slice(alloc, places)?)),
    }
}

/// The loops of a method with code.
pub(crate) fn loops_of(
    alloc: Global,
    program: &Program,
    headers: &LoopHeaders,
    number: u32,
) -> Result<MethodLoops, NoMemory>
    requires coded { IsSome (body_of (resolved program.now) number) }
    requires headers { AreHeadersOf (resolved program.now) number headers.now }
    ensures { IfOk result (IsToldOf program.now number) }
{
    methods_stand_by_number();
    graphs_are_one();
    graphs_are_moved();
    parts_are_sound();
    ends_are_one();
    headers_are_instructions();
    method_graphs_are_reached();
    compact_keeps_loops();
    let shape = shape_by(alloc, headers)?;
    let source = source_where(alloc, program, number, &shape)?;
    Ok(MethodLoops { shape, source })
}

/// Appends the lines of the headers at these places of a method, which rise.
fn put_headers(
    text: &mut Vec<u8>,
    notes: &SourceBounds,
    method: Method<'_>,
    places: &[u32],
    source: &Option<MethodSource>,
    found: &[FoundLoop],
) -> Result<(), NoMemory>
    requires places { IsStrictlyIncreasing places.now }
    requires found { AreRising found.now }
    ensures { OnOk result (text.new.items ≡ text.old.items
        ++ headers_by notes.now found.now method.entry.number method.entry.name.now source.now places.now) }
{
    let mut left = found;
    for place in places {
        left = from_place(left, method.number, *place);
        let number = number_at(left, method.number, *place);
        put_header(
            text,
            notes,
            method.name,
            *place,
            source_at(source, *place),
            number,
        )?;
    }
    Ok(())
}

/// Appends the lines of a method.
pub(crate) fn put_method(
    text: &mut Vec<u8>,
    notes: &SourceBounds,
    method: Method<'_>,
    loops: &MethodLoops,
    found: &[FoundLoop],
) -> Result<(), NoMemory>
    requires places { IsStrictlyIncreasing (headed_places loops.now.shape) }
    requires found { AreRising found.now }
    ensures { OnOk result (text.new.items ≡ text.old.items
        ++ lines_by notes.now found.now method.entry.number method.entry.name.now loops.now.source loops.now.shape) }
{
    match &loops.shape {
        Shape::Irreducible(nodes) => put_irreducible(text, method.name, nodes),
        Shape::Reducible(places) => put_headers(text, notes, method, places, &loops.source, found),
    }
}
