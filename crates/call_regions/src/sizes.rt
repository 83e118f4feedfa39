//! How large the code of a method is.
ghost use Rattle.std.specs.Prelude.{◌≡◌, ◌<◌, length};
ghost use Rattle.base.specs.Packed.{words_for};
ghost use Rattle.method_cache.specs.Contents.{blocks_for};
ghost use Rattle.method_flow.specs.Flow.{IsCoded};

use method_flow::FlowMethod;

/// How many words of four bytes the method's code takes.
pub fn words(k: &FlowMethod) -> u32
    ensures words { result ≡ words_for (length k.now.code) }
    ensures some { 0 < result }
{
    k.code().len().div_ceil(4) as u32
}

/// How many blocks of the cache it takes, which have so many words each.
pub(crate) fn blocks(k: &FlowMethod, block_words: u32) -> u32
    requires { 0 < block_words }
    ensures blocks { result ≡ blocks_for block_words (words_for (length k.now.code)) }
    ensures form { IsCoded k.now }
{
    // Its clause is for the proof alone.
    let _ = k.code();
    words(k).div_ceil(block_words)
}
