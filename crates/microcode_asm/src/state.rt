//! What is kept of the lines that were assembled.
ghost use Rattle.std.specs.Prelude.{◌≡◌, length};

use indexmap::IndexSet;
use microcode::isa::Turns;

/// The words of the lines so far, and what their directives gave.
#[derive(Drop)]
pub(crate) struct Assembly {
    pub names: IndexSet<Vec<u8>>,
    pub words: Vec<u16>,
    pub entries: Vec<Option<u16>>,
    pub raise: Option<u16>,
    pub consts: Vec<Option<u32>>,
    pub turns: Vec<(u16, Turns)>,
    /// The turns that count for the next word.
    pub counting: Option<Turns>,
    ghost entry_count: { length entries.items ≡ 256 },
    ghost constant_count: { length consts.items ≡ 32 },
}
