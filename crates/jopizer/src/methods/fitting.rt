//! Which codes fit the method cache (JOP Reference Handbook, "Method Cache").
ghost use Rattle.std.specs.Prelude.{◌≡◌, ◌<◌, ◌≤◌, length};
ghost use Rattle.base.specs.Packed.{words_for};
ghost use Rattle.method_cache.specs.Contents.{blocks_for};
ghost use Rattle.program_tables.specs.Resolved.{resolved};
ghost use Rattle.jopizer.specs.Methods.Fitting.{IsFirstTooLong};

use program_tables::laws::methods_stand_by_number;
use resolved_program::Program;

/// A method whose code takes more blocks of the method cache than there are.
#[derive(Clone, Copy)]
pub struct TooLong {
    /// Its number.
    pub method: u32,
    /// The blocks that its code takes.
    pub blocks: u32,
}

/// The blocks of so many words that a code takes, four bytes a word.
fn blocks_of(code: &[u8], block_words: u32) -> u32
    requires words { 1 ≤ block_words }
    requires short { length code.now < 65536 }
    ensures { result ≡ blocks_for block_words (words_for (length code.now)) }
{
    let words = (code.len() as u32).div_ceil(4);
    words.div_ceil(block_words)
}

/// The first method, by number, whose code doesn't fit a method cache of so many blocks of so many words.
pub fn first_too_long(program: &Program, blocks: u32, block_words: u32) -> Option<TooLong>
    requires { 1 ≤ block_words }
    ensures { IsFirstTooLong (resolved program.now) blocks block_words result }
{
    // The law is for the proof.
    methods_stand_by_number();
    for number in 0..program.method_count() {
        // Those without code come last.
        let Some(code) = program.code(number) else {
            return None;
        };
        let taken = blocks_of(code.code.as_slice(), block_words);
        if taken > blocks {
            return Some(TooLong {
                method: number,
                blocks: taken,
            });
        }
    }
    None
}
