//! The bounds that lines give.
ghost use Rattle.std.specs.Prelude.{◌≤◌, length, IfOk, IfErr};
ghost use Rattle.base.specs.Sizes.{longest_file};
ghost use Rattle.bound_texts.specs.Sources.Grammar.{AreNotesRead};
ghost use Rattle.source_headers.specs.Files.{IsLinesFault};

use crate::fault::HeaderFault;
use bound_texts::sources::{SourceBounds, read_source_bounds};
use std::alloc::Global;

/// The bounds that lines give, of lines of sources and of places of methods.
///
/// # Errors
///
/// The first line that is none of the grammar, or bounds something a second time.
pub fn notes_in(alloc: Global, lines: &[u8]) -> Result<SourceBounds, HeaderFault>
    requires { length lines.now ≤ longest_file }
    ensures read { IfOk result (AreNotesRead lines.now) }
    ensures fault { IfErr result (IsLinesFault lines.now) }
{
    Ok(read_source_bounds(alloc, lines)?)
}
