//! The blocks of the ring: what each one holds, and writes that go on at the ring's start.
//!
//! `rotated at ring` is the ring as a list that begins at place `at`.

ghost use Rattle.std.specs.Prelude.{◌≡◌, ◌+◌, ◌*◌, ◌%◌, ◌<◌, ◌≤◌, ◌++◌, true, false, length, replicate, drop, take, slice_index, slice_index_or, nat_lt};
ghost use Rattle.std.specs.Prelude.{if◌then◌else◌, IfSome, IfNone, All, None};
ghost use Rattle.method_cache.specs.Contents.{blocks_for};
ghost use Rattle.method_cache.specs.declared.TheConstants.{MAX_BLOCKS, MAX_BLOCK_WORDS};
ghost use Rattle.method_cache.specs.Ring.{rotated, parts, begins, IsExtent, method_of, stale_of, stale_first, cleared};

/// What a block holds: a part of a method.
#[derive(Clone, Copy)]
pub struct Tag {
    /// The method's place in main memory.
    pub method: u32,
    /// Which of the method's blocks this is.
    pub part: usize,
    /// The words of the whole method.
    pub words: usize,
}

/// Where a method lies in the ring.
#[derive(Clone, Copy)]
pub struct Extent {
    /// The method's place in main memory.
    pub method: u32,
    /// The place of its first word among the words of all blocks.
    pub first: usize,
    /// How many words it has.
    pub words: usize,
}

/// A place of a ring of `size` places, after at most one turn.
pub fn wrapped(at: usize, size: usize) -> usize
    requires { at < size + size }
    ensures { result ≡ at % size }
{
    if at < size { at } else { at - size }
}

fn begins_in(tag: Option<Tag>, method: u32) -> bool
    ensures { result ≡ begins method tag }
{
    tag.is_some_and(|tag| tag.method == method && tag.part == 0)
}

/// The method that lies in a block with this tag.
pub fn method_in(tag: Option<Tag>) -> Option<u32>
    ensures { result ≡ method_of tag }
{
    tag.map(|tag| tag.method)
}

/// Where a method lies.
pub fn find(tags: &[Option<Tag>], block_words: usize, method: u32) -> Option<Extent>
    requires { length tags.now * block_words ≤ MAX_BLOCKS * MAX_BLOCK_WORDS }
    ensures found { IfSome result (IsExtent block_words tags.now) }
    ensures same { IfSome result (λ e. e.method ≡ method) }
    ensures absent { IfNone result (All (λ t. begins method t ≡ false) tags.now) }
{
    let block = tags.iter().position(|tag| begins_in(*tag, method))?;
    tags[block].map(|tag| Extent {
        method,
        first: block * block_words,
        words: tag.words,
    })
}

/// Word `i` of the method that lies there. It is 0 past the method's words.
pub fn word_at(ring: &[u32], extent: Extent, i: usize) -> u32
    requires { i < extent.words → extent.first + i < length ring.now + length ring.now }
    ensures { result
        ≡ (if nat_lt i extent.words then slice_index ring.now ((extent.first + i) % length ring.now) else 0) }
{
    if i < extent.words {
        ring[wrapped(extent.first + i, ring.len())]
    } else {
        0
    }
}

/// How many blocks, from one with this tag on, hold the rest of a method that begins before it.
pub fn stale_blocks(tag: Option<Tag>, block_words: usize) -> usize
    requires { 0 < block_words }
    ensures { result ≡ stale_of block_words tag }
{
    match tag {
        Some(tag) if tag.part > 0 => tag.words.div_ceil(block_words).saturating_sub(tag.part),
        _ => 0,
    }
}

/// Tags `count` blocks from place `at` on as those of a method of `words` words.
pub fn put_tags(tags: &mut [Option<Tag>], at: usize, method: u32, words: usize, count: usize)
    requires place { at < length tags.old }
    requires room { count ≤ length tags.old }
    ensures { rotated at tags.new
        ≡ parts method words count ++ drop count (rotated at tags.old) }
{
    for part in 0..count {
        let block = wrapped(at + part, tags.len());
        tags[block] = Some(Tag {
            method,
            part,
            words,
        });
    }
}

/// Takes the tags of `count` blocks from place `at` on away.
pub fn clear_tags(tags: &mut [Option<Tag>], at: usize, count: usize)
    requires place { at < length tags.old }
    requires room { count ≤ length tags.old }
    ensures { rotated at tags.new ≡ replicate count None ++ drop count (rotated at tags.old) }
{
    for i in 0..count {
        let block = wrapped(at + i, tags.len());
        tags[block] = None;
    }
}

/// Writes words from place `at` of the ring on.
pub fn put_words(ring: &mut [u32], at: usize, words: &[u32])
    requires place { at < length ring.old }
    requires room { length words.now ≤ length ring.old }
    ensures { rotated at ring.new
        ≡ words.now ++ drop (length words.now) (rotated at ring.old) }
{
    for (i, word) in words.iter().enumerate() {
        let place = wrapped(at + i, ring.len());
        ring[place] = *word;
    }
}

/// Stores a method in the blocks from `next` on, and frees what is left of a method of which it
/// takes the first blocks. The result is the block behind it.
pub fn store(
    tags: &mut [Option<Tag>],
    ring: &mut [u32],
    next: usize,
    block_words: usize,
    method: u32,
    words: &[u32],
) -> usize
    requires some { 0 < block_words }
    requires place { next < length tags.old }
    requires room { blocks_for block_words (length words.now) ≤ length tags.old }
    requires size { length ring.old ≡ length tags.old * block_words }
    requires stale { let count = blocks_for block_words (length words.now) in
        let rest = drop count (rotated next tags.old) in
        stale_of block_words (slice_index_or tags.old ((next + count) % length tags.old) None)
        ≡ stale_first block_words rest }
    requires stale_room { let count = blocks_for block_words (length words.now) in
        let rest = drop count (rotated next tags.old) in
        stale_first block_words rest ≤ length rest }
    ensures end { result ≡ (next + blocks_for block_words (length words.now)) % length tags.old }
    ensures tags { let count = blocks_for block_words (length words.now) in
        rotated result tags.new
        ≡ cleared block_words (drop count (rotated next tags.old))
        ++ parts method (length words.now) count }
    ensures words { let size = blocks_for block_words (length words.now) * block_words in
        let old = rotated (next * block_words) ring.old in
        rotated (result * block_words) ring.new
        ≡ drop size old ++ take size (words.now ++ drop (length words.now) old) }
{
    let count = words.len().div_ceil(block_words);
    let end = wrapped(next + count, tags.len());
    let stale = stale_blocks(tags[end], block_words);
    put_tags(tags, next, method, words.len(), count);
    clear_tags(tags, end, stale);
    put_words(ring, next * block_words, words);
    end
}
