//! Which rows are told in one line.
ghost use Rattle.std.specs.Prelude.{◌≡◌, ◌<◌, length, option_map};
ghost use Rattle.report_lines.specs.Entries.{key_of, spot_by};
ghost use Rattle.report_lines.specs.Told.{source_told};

use crate::methods::MethodText;
use bound_report::contents::ReportRow;
use source_places::methods::source_at;

/// Where an instruction stands in the source of its method.
#[derive(Clone, Copy, PartialEq, Eq, Hash)]
pub(crate) enum Spot {
    /// On this line.
    Line(u32),
    /// At this place of the code, of which no line is told.
    Place(u32),
}

/// Where rows stand that are told in one line: a spot of a method.
#[derive(Clone, Copy, PartialEq, Eq, Hash)]
pub(crate) struct Key {
    pub(crate) method: u32,
    pub(crate) spot: Spot,
}

/// Where an instruction at a place stands, of which this source is told.
fn spot_at(source: Option<(&[u8], u32)>, place: u32) -> Spot
    ensures { result ≡ spot_by place (option_map (λ s. (s.0.now, s.1)) source.entry) }
{
    match source {
        Some((_, line)) => Spot::Line(line),
        None => Spot::Place(place),
    }
}

/// Where a row stands.
pub(crate) fn key_of(methods: &[MethodText], row: ReportRow) -> Key
    requires { row.method < length methods.now }
    ensures { result ≡ key_of (source_told methods.now) row }
{
    let source = source_at(&methods[row.method as usize].source, row.place);
    Key {
        method: row.method,
        spot: spot_at(source, row.place),
    }
}
