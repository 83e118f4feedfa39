//! The lines of all places of a code, made once.
ghost use Rattle.std.specs.Prelude.{◌≡◌, ℕ, suc, ◌<◌, length, slice_index_or, None, All, IfOk};
ghost use Rattle.std.specs.Option.{option_or};
ghost use Rattle.source_places.specs.Tables.Lines.{line_of, starts_in, starts_of};
ghost use Rattle.source_places.specs.Tables.Table.{last_at, carried};

use crate::tables::numbers::number;
use crate::tables::starts::entries;
use base::NoMemory;
use class_pool::kind::is_named;
use class_pool::{Code, Pool};
use std::alloc::Global;

/// The lines of all places of a code, those in the middle of instructions included: what `line_at` tells, made once.
pub fn lines_of(alloc: Global, pool: &Pool, code: &Code) -> Result<Vec<Option<u16>>, NoMemory>
    ensures length { IfOk result (λ lines. length lines.items ≡ length code.now.code) }
    ensures lines { IfOk result (λ lines. (place : ℕ) → place < length lines.items → slice_index_or lines.items place None ≡ line_of pool.now code.now place) }
{
    let mut lines = vec![in alloc; None; code.code.as_slice().len()]?;
    tell_lines(pool, code, &mut lines);
    Ok(lines)
}

/// Puts the line at each place that has one.
fn tell_lines(pool: &Pool, code: &Code, lines: &mut [Option<u16>])
    requires { All (λ line. line ≡ None) lines.old }
    ensures { (place : ℕ) → place < length lines.new → slice_index_or lines.new place None ≡ line_of pool.now code.now place }
{
    put_starts(pool, code, lines);
    carry(lines);
}

/// Puts each line where it starts.
fn put_starts(pool: &Pool, code: &Code, lines: &mut [Option<u16>])
    requires { All (λ line. line ≡ None) lines.old }
    ensures { (place : ℕ) → place < length lines.new → slice_index_or lines.new place None ≡ last_at place (starts_of pool.now code.now) }
{
    for (name, bytes) in code.attributes.as_slice() {
        if is_named(pool, *name, b"LineNumberTable") {
            put_table(entries(bytes.as_slice()), lines);
        }
    }
}

/// Puts each line of a table where it starts, in place of one that is there.
fn put_table(entries: &[u8], lines: &mut [Option<u16>])
    ensures { (place : ℕ) → place < length lines.new → slice_index_or lines.new place None ≡ option_or (last_at place (starts_in entries.now))
        (slice_index_or lines.old place None) }
{
    let mut left = entries;
    while let [a, b, c, d, rest @ ..] = left {
        let start = usize::from(number(*a, *b));
        if start < lines.len() {
            lines[start] = Some(number(*c, *d));
        }
        left = rest;
    }
}

/// Puts at each place without a line that of the place before it.
fn carry(lines: &mut [Option<u16>])
    ensures { (place : ℕ) → place < length lines.new → slice_index_or lines.new place None ≡ carried lines.old (suc place) }
{
    let mut last = None;
    for line in lines.iter_mut() {
        if line.is_some() {
            last = *line;
        } else {
            *line = last;
        }
    }
}
