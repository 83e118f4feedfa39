//! Machines at reset.
ghost use Rattle.std.specs.Prelude.{◌≡◌, ◌↔◌, ◌<◌, ◌≤◌, length, IfOk, IsTrue, slice_index};
ghost use Rattle.machine_memory.specs.Stack.Size.{IsSize};
ghost use Rattle.method_cache.specs.Contents.{empty, can_load};
ghost use Rattle.jop_core.specs.Reset.{reset_of, first_byte, bare_reset, linked_reset, CanStart, CanStartBare, word_at_bytes, words_of_bytes};
ghost use Rattle.jop_core.specs.Starts.{starts, IsLinkedBoot, first_words};

use crate::code::code_at;
use crate::halt::Halt;
use crate::machine::{Machine, NOT_FETCHED};
use crate::places;
use base::laws::packed_has_words;
use base::{NoMemory, pack};
use image_file::Bare;
use machine_memory::stack::StackCache;
use machine_memory::timing::{Config, Memory};
use method_cache::MethodCache;
use microcode::{constant, entry};
use std::alloc::Global;

/// What a machine begins with, but for the words of its image and of its code.
#[derive(Clone, Copy)]
pub(crate) struct Boot {
    // The place of boot's method, its locals, and the words of its frame.
    pub place: u32,
    pub max_locals: u16,
    pub frame: u32,
    // The places of boot's pool and of the raise list.
    pub pool: u32,
    pub raise_list: u32,
}

impl<const N: usize> Machine<N> {
    /// A machine at reset over the words of a linked image. The only error is that there was no memory.
    pub fn new(alloc: Global, image: &[u32], config: Config) -> Result<Self, NoMemory>
        requires size { IsSize N }
        requires start { CanStart image.now config }
        ensures { IfOk result (λ m. m ≡ linked_reset N image.now config) }
    {
        let boot = boot_of(image);
        let place = boot.place as usize;
        let code = code_at(boot.place, image[place + 1], image[place + 3]);
        let start = code.place as usize;
        let words = &image[start..start + code.words as usize];
        Machine::begin(alloc, boot, image, words, config)
    }

    /// A machine at reset over a bare image. The only error is that there was no memory.
    pub fn bare(alloc: Global, bare: &Bare, config: Config) -> Result<Self, NoMemory>
        requires size { IsSize N }
        requires blocks { CanStartBare bare.now config }
        ensures { IfOk result (λ m. m ≡ bare_reset N bare.now config) }
    {
        let max_locals = bare.max_locals();
        let boot = Boot {
            place: 0,
            max_locals,
            frame: max_locals as u32 + 5 + bare.max_stack() as u32,
            pool: 0,
            raise_list: 0,
        };
        // The law is for the proof.
        packed_has_words();
        let code = pack(alloc, bare.code())?;
        Machine::begin(alloc, boot, &[], &code, config)
    }

    /// A machine at reset, whose boot method has this code.
    #[tactic(auto, using(crate::proofs::Fetching::not_fetched))]
    fn begin(
        alloc: Global,
        boot: Boot,
        image: &[u32],
        code: &[u32],
        config: Config,
    ) -> Result<Self, NoMemory>
        requires size { IsSize N }
        requires memory { length image.now ≤ config.memory }
        requires can { IsTrue (can_load (length code.now) (empty config.blocks config.block_words)) }
        ensures { IfOk result (λ m. m ≡ reset_of N (starts boot image.now code.now) config) }
    {
        let mut cache = MethodCache::new(alloc, config.blocks, config.block_words)?;
        cache.load(boot.place, code);
        let memory = Memory::with_image(alloc, image, config.memory, config.read, config.write)?;
        let stack = reset_stack(alloc, boot, image.len() as u32, config)?;
        let opcode = first_of(code);
        Ok(Machine {
            a: 0,
            b: 0,
            sp: (places::STACK + boot.max_locals as u32 + 2) % N as u32,
            vp: places::STACK,
            ar: 0,
            jpc: 1,
            mpc: entry(opcode),
            operand: 0,
            opcode,
            method: boot.place,
            cache,
            fetched: [0; 4],
            fetched_place: NOT_FETCHED,
            stall: 0,
            halt: Halt::Running,
            paused: false,
            stack,
            memory,
            write_address: 0,
            clock: 0,
            hits: 0,
            misses: 0,
        })
    }
}

/// What a linked machine begins with.
fn boot_of(image: &[u32]) -> Boot
    requires header { 16 ≤ length image.now }
    requires boot { slice_index image.now 1 < length image.now }
    ensures { IsLinkedBoot result image.now }
{
    let place = image[1];
    let limits = image[place as usize];
    let max_locals = (limits / 65536) as u16;
    Boot {
        place,
        max_locals,
        frame: max_locals as u32 + 5 + limits % 65536,
        pool: image[2],
        raise_list: image[4],
    }
}

/// The first byte of code that has a word.
fn first_of(code: &[u32]) -> u8
    requires { 0 < length code.now }
    ensures { result ≡ first_byte code.now }
{
    (code[0] / 16_777_216) as u8
}

/// The on-chip words at reset, of an image of so many words.
fn reset_stack<const N: usize>(
    alloc: Global,
    boot: Boot,
    image_words: u32,
    config: Config,
) -> Result<StackCache<N>, NoMemory>
    requires { IsSize N }
    ensures { IfOk result (λ s. s ≡ first_words N config.memory boot image_words) }
{
    let mut stack = StackCache::new(alloc)?;
    stack.write(places::POOL, boot.pool);
    stack.write(places::METHOD, boot.place);
    stack.write(places::NEXT_FREE, image_words);
    stack.write(places::MEMORY_END, config.memory);
    stack.write(places::FRAME_SUM, boot.frame);
    stack.write(places::FRAME_LIMIT, stack.limit());
    stack.write(places::RAISE_LIST, boot.raise_list);
    for k in 0..32 {
        stack.write(places::CONSTANTS + k as u32, constant(k));
    }
    Ok(stack)
}

/// Whether a machine can begin with these image words and settings: the test of what `Machine::new` requires.
pub fn can_start(image: &[u32], config: Config) -> bool
    ensures { IsTrue result ↔ CanStart image.now config }
{
    if image.len() < 16 || image.len() > config.memory as usize {
        return false;
    }
    let place = image[1] as usize;
    if place + 4 > image.len() {
        return false;
    }
    let code = code_at(image[1], image[place + 1], image[place + 3]);
    code.place + code.words as u64 <= image.len() as u64 && is_loadable(code.words, config)
}

/// Whether a machine can begin with this bare image and these settings: the test of what `Machine::bare`
/// requires.
pub fn can_start_bare(bare: &Bare, config: Config) -> bool
    ensures { IsTrue result ↔ CanStartBare bare.now config }
{
    is_loadable(bare.code().len().div_ceil(4) as u32, config)
}

/// Whether a method of so many words can be loaded into a cache with these settings.
fn is_loadable(words: u32, config: Config) -> bool
    ensures { result ≡ can_load words (empty config.blocks config.block_words) }
{
    words > 0 && words.div_ceil(config.block_words) <= config.blocks
}
