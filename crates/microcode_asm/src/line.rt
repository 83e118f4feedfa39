//! A line of the text.
ghost use Rattle.std.specs.Prelude.{◌≡◌, ◌≤◌, IfOk, IfSome, length, drop, map};
ghost use Rattle.std.specs.Option.{option_map};
ghost use Rattle.microcode_asm.specs.Statements.{line_of};
ghost use Rattle.microcode_asm.specs.Meaning.{line_meaning, IsInRange};

use crate::part::{labels_of, parts_of};
use crate::statement::{Statement, read_statement};
use base::NoMemory;
use std::alloc::Global;

/// The labels of a line, and what it says behind them.
#[derive(Drop)]
pub struct Line<'a> {
    pub labels: Vec<&'a [u8]>,
    pub statement: Statement<'a>,
}

/// The line that a text is, if it is one of the grammar.
pub fn read_line<'a>(alloc: Global, text: &'a [u8]) -> Result<Option<Line<'a>>, NoMemory>
    ensures line { IfOk result (λ line. option_map line_meaning line ≡ line_of text.now) }
    ensures range { IfOk result (λ line. IfSome line (λ l. IsInRange l.statement)) }
{
    let parts = parts_of(alloc, text)?;
    let labels = labels_of(alloc, parts.as_slice())?;
    match read_statement(behind(parts.as_slice(), labels.len())) {
        Some(statement) => Ok(Some(Line { labels, statement })),
        None => Ok(None),
    }
}

/// The parts behind the first ones.
fn behind<'p, 'a>(parts: &'p [&'a [u8]], count: usize) -> &'p [&'a [u8]]
    requires { count ≤ length parts.now }
    ensures { result.now ≡ drop count parts.now }
{
    &parts[count..]
}
