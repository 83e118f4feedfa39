//! The shape of a machine: how many words its memories have, and how many bits tell their places apart.

ghost use Rattle.std.specs.Prelude.{◌≡◌, ◌*◌, ◌^◌, ◌≤◌};
ghost use Rattle.machine_memory.specs.declared.timing.TheConstants.{MAX_BLOCKS, MAX_BLOCK_WORDS, MAX_MEMORY, MAX_WAIT};
ghost use Rattle.machine_memory.specs.Stack.Size.{IsSize};
ghost use Rattle.circuit_core.specs.Places.{TellsApart};

use machine_memory::timing::Config;

/// The shape of a machine.
#[derive(Clone, Copy)]
pub struct Shape {
    /// How many on-chip words there are, and the bits of their places.
    pub on_chip_words: u32,
    pub on_chip_bits: u32,
    /// How many words the main memory has, and the bits of their places.
    pub memory_words: u32,
    pub memory_bits: u32,
    /// The cycles that a read and a write wait.
    pub read_wait: u32,
    pub write_wait: u32,
    /// How many blocks the method cache has, and the bits of their numbers.
    pub blocks: u32,
    pub block_bits: u32,
    /// How many words a block has, and the bits of their places in it.
    pub block_words: u32,
    pub in_block_bits: u32,
    /// How many words all blocks have, and the bits of their places.
    pub ring_words: u32,
    pub ring_bits: u32,
    pub ghost some_on_chip: { 80 ≤ on_chip_words },
    pub ghost on_chip: { 2 ^ on_chip_bits ≡ on_chip_words },
    pub ghost some_places: { 6 ≤ on_chip_bits },
    pub ghost few_on_chip: { on_chip_bits ≤ 31 },
    pub ghost few_places: { memory_bits ≤ 32 },
    pub ghost few_ring: { ring_bits ≤ 31 },
    pub ghost most_memory: { memory_words ≤ MAX_MEMORY },
    pub ghost most_read: { read_wait ≤ MAX_WAIT },
    pub ghost most_write: { write_wait ≤ MAX_WAIT },
    pub ghost some_blocks: { 1 ≤ blocks },
    pub ghost most_blocks: { blocks ≤ MAX_BLOCKS },
    pub ghost some_words: { 1 ≤ block_words },
    pub ghost most_words: { block_words ≤ MAX_BLOCK_WORDS },
    pub ghost ring: { ring_words ≡ blocks * block_words },
    pub ghost on_chip_places: { TellsApart on_chip_bits on_chip_words },
    pub ghost memory_places: { TellsApart memory_bits memory_words },
    pub ghost block_places: { TellsApart block_bits blocks },
    pub ghost in_block_places: { TellsApart in_block_bits block_words },
    pub ghost ring_places: { TellsApart ring_bits ring_words },
}

/// How many bits tell so many places apart, of which there are some; at least one.
fn bits_for(places: u32) -> u32
    ensures { TellsApart result places }
{
    (32 - places.saturating_sub(1).leading_zeros()).max(1)
}

impl Shape {
    /// The shape of a machine with so many on-chip words and these settings.
    pub fn new(on_chip_words: u32, config: Config) -> Self
        requires { IsSize on_chip_words }
        ensures on_chip { result.on_chip_words ≡ on_chip_words }
        ensures memory { result.memory_words ≡ config.memory }
        ensures read { result.read_wait ≡ config.read }
        ensures write { result.write_wait ≡ config.write }
        ensures blocks { result.blocks ≡ config.blocks }
        ensures words { result.block_words ≡ config.block_words }
    {
        let ring_words = config.blocks * config.block_words;
        Shape {
            on_chip_words,
            on_chip_bits: bits_for(on_chip_words),
            memory_words: config.memory,
            memory_bits: bits_for(config.memory),
            read_wait: config.read,
            write_wait: config.write,
            blocks: config.blocks,
            block_bits: bits_for(config.blocks),
            block_words: config.block_words,
            in_block_bits: bits_for(config.block_words),
            ring_words,
            ring_bits: bits_for(ring_words),
        }
    }
}
