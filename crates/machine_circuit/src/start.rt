//! What a circuit begins with: the words of an image and of its boot method, and where things lie.

ghost use Rattle.std.specs.Prelude.{◌+◌, ◌<◌, ◌≤◌, ◌^◌, length, slice_index};
ghost use Rattle.jop_core.specs.Operations.{code_place, code_words};

use circuit_build::Logic;
use circuit_core::Shape;
use image_file::Bare;
use jop_core::places;
use microcode::CONSTANTS;

/// What a circuit begins with.
#[derive(Clone, Copy)]
pub(crate) struct Start<'a> {
    /// The words of the image, and those of boot's code, and how many these are.
    pub image: &'a [u32],
    pub code: &'a [u32],
    pub code_words: u32,
    /// The place of boot's method, its locals, and the words of its frame.
    pub boot: u32,
    pub max_locals: u32,
    pub frame: u32,
    /// The places of boot's pool and of the raise list.
    pub pool: u32,
    pub raise_list: u32,
    pub ghost some_code: { 0 < length code.now },
    pub ghost few_words: { length image.now < 2 ^ 32 },
    pub ghost few_locals: { max_locals < 2 ^ 16 },
}

impl<'a> Start<'a> {
    /// What the words of a linked image begin with.
    pub fn linked(image: &'a [u32]) -> Self
        requires header { 16 ≤ length image.now }
        requires few { length image.now < 2 ^ 32 }
        requires boot { code_place image.now (slice_index image.now 1) + code_words image.now (slice_index image.now 1) ≤ length image.now }
        requires code { 0 < code_words image.now (slice_index image.now 1) }
    {
        let boot = image[1] as usize;
        let limits = image[boot];
        let words = (image[boot + 1] % 65536) as usize;
        let place = boot + 4 + 3 * image[boot + 3] as usize;
        Start {
            image,
            code: &image[place..place + words],
            code_words: image[boot + 1] % 65536,
            boot: image[1],
            max_locals: limits / 65536,
            frame: limits / 65536 + 5 + limits % 65536,
            pool: image[2],
            raise_list: image[4],
        }
    }

    /// What a bare image begins with, whose code has these words.
    pub fn bare(bare: &Bare, code: &'a [u32]) -> Self
        requires { 0 < length code.now }
    {
        let max_locals = u32::from(bare.max_locals());
        Start {
            image: &[],
            code,
            code_words: bare.code().len().div_ceil(4) as u32,
            boot: 0,
            max_locals,
            frame: max_locals + 5 + u32::from(bare.max_stack()),
            pool: 0,
            raise_list: 0,
        }
    }

    /// The first opcode.
    pub fn opcode(&self) -> u8 {
        (self.code[0] / 16_777_216) as u8
    }
}

/// A list of words.
pub(crate) fn words<T: Copy, F: Fn(T) -> u64>(logic: &mut Logic, items: &[T], word: F) -> Vec<u64>
    requires { F.IsAlwaysCallable word }
{
    let mut words = logic.list();
    for item in items {
        logic.push(&mut words, word(*item));
    }
    words
}

/// The on-chip words at the start, up to the stack; those of the stack are 0.
pub(crate) fn first_on_chip(logic: &mut Logic, start: &Start<'_>, shape: &Shape) -> Vec<u64> {
    let mut first = [0u32; places::STACK as usize];
    first[places::POOL as usize] = start.pool;
    first[places::METHOD as usize] = start.boot;
    first[places::NEXT_FREE as usize] = start.image.len() as u32;
    first[places::MEMORY_END as usize] = shape.memory_words;
    first[places::FRAME_SUM as usize] = start.frame;
    first[places::FRAME_LIMIT as usize] = shape.on_chip_words - 80;
    first[places::RAISE_LIST as usize] = start.raise_list;
    for k in 0..CONSTANTS.len() {
        first[places::CONSTANTS as usize + k] = CONSTANTS[k];
    }
    words(logic, &first, |word: u32| u64::from(word))
}
