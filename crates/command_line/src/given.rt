//! What options were given to mean.
ghost use Rattle.std.specs.Prelude.{◌≡◌, ℕ, ◌<◌, ◌^◌, is_some, IfSome};
ghost use Rattle.command_line.specs.Command.{number_from, meaning, with_value, is_taken, has_required, settings_of};
ghost use Rattle.command_line.specs.Given.{values_of};
ghost use Rattle.command_line.specs.Table.{value_of_name};

use crate::command::Settings;
use crate::table::{Name, Verb};
use ascii_text::read_u64;

/// What options were given to mean: names by the numbers of their words.
#[derive(Clone, Copy)]
pub(crate) struct Given {
    pub(crate) main: Option<u32>,
    pub(crate) method: Option<u32>,
    pub(crate) all: Option<u32>,
    pub(crate) shapes: Option<u32>,
    pub(crate) cycles: Option<u64>,
    pub(crate) stack: Option<u32>,
    pub(crate) memory: Option<u32>,
    pub(crate) blocks: Option<u32>,
    pub(crate) block_words: Option<u32>,
    pub(crate) read: Option<u32>,
    pub(crate) write: Option<u32>,
    pub(crate) micro: Option<u32>,
    pub(crate) rounds: Option<u32>,
    pub(crate) further: Option<u32>,
    pub(crate) facts: Option<u32>,
}

/// Where none is given.
pub(crate) const NONE_GIVEN: Given = Given {
    main: None,
    method: None,
    all: None,
    shapes: None,
    cycles: None,
    stack: None,
    memory: None,
    blocks: None,
    block_words: None,
    read: None,
    write: None,
    micro: None,
    rounds: None,
    further: None,
    facts: None,
};

/// The number from one to another that a word gives.
pub(crate) fn number_from(from: u64, to: u64, word: &str) -> Option<u64>
    ensures { result ≡ number_from from to word.now }
{
    let number = read_u64(word.as_bytes())?;
    if from <= number && number <= to {
        Some(number)
    } else {
        None
    }
}

/// The size of a stack cache that a word gives.
fn stack_size(word: &str) -> Option<u64>
    ensures exact { (k : ℕ) → result ≡ meaning (value_of_name Name.Stack) k word.now }
    ensures small { IfSome result (λ n. n < 2 ^ 32) }
{
    let number = number_from(256, 1024, word)?;
    if number == 256 || number == 512 || number == 1024 {
        Some(number)
    } else {
        None
    }
}

/// What the value of an option means that is word `k`.
pub(crate) fn meaning(name: Name, k: u32, word: &str) -> Option<u64>
    ensures exact { result ≡ meaning (value_of_name name) k word.now }
    ensures small { IfSome result (λ n. (name ≡ Name.Cycles → ⊥) → n < 2 ^ 32) }
{
    match name {
        Name::Main | Name::Method | Name::Facts => {
            if word.is_empty() {
                None
            } else {
                Some(u64::from(k))
            }
        }
        Name::Cycles => number_from(0, 9_223_372_036_854_775_807, word),
        Name::Stack => stack_size(word),
        Name::Memory => number_from(16, 16_777_216, word),
        Name::Blocks => number_from(1, 256, word),
        Name::BlockWords => number_from(1, 1024, word),
        Name::Read | Name::Write => number_from(0, 63, word),
        Name::Rounds => number_from(1, 32_767, word),
        Name::Micro | Name::All | Name::Shapes | Name::Further => None,
    }
}

impl Given {
    /// Whether the option was given, or one that excludes it.
    pub(crate) fn is_taken(&self, name: Name) -> bool
        ensures { result ≡ is_taken (values_of self.now) name }
    {
        match name {
            Name::Main => self.main.is_some(),
            Name::Method => self.method.is_some() || self.all.is_some(),
            Name::All => self.is_all_taken(),
            Name::Shapes => self.is_shape_taken(),
            Name::Cycles => self.cycles.is_some(),
            Name::Stack => self.stack.is_some(),
            Name::Memory => self.memory.is_some(),
            Name::Blocks => self.blocks.is_some() || self.shapes.is_some(),
            Name::BlockWords => self.block_words.is_some() || self.shapes.is_some(),
            Name::Read => self.read.is_some(),
            Name::Write => self.write.is_some(),
            Name::Micro => self.micro.is_some(),
            Name::Rounds => self.rounds.is_some(),
            Name::Further => self.further.is_some(),
            Name::Facts => self.facts.is_some() || self.all.is_some() || self.shapes.is_some(),
        }
    }

    /// Whether the option was given that asks for all methods, or one that excludes it.
    fn is_all_taken(&self) -> bool
        ensures { result ≡ is_taken (values_of self.now) Name.All }
    {
        self.all.is_some() || self.method.is_some() || self.shapes.is_some() || self.facts.is_some()
    }

    /// Whether the option was given that asks for each shape, or one that excludes it.
    fn is_shape_taken(&self) -> bool
        ensures { result ≡ is_taken (values_of self.now) Name.Shapes }
    {
        self.shapes.is_some()
            || self.all.is_some()
            || self.blocks.is_some()
            || self.block_words.is_some()
            || self.facts.is_some()
    }

    /// The same, with this option given too.
    pub(crate) fn with(self, name: Name, n: u64) -> Given
        requires { (name ≡ Name.Cycles → ⊥) → n < 2 ^ 32 }
        ensures { values_of result ≡ with_value (values_of self) name n }
    {
        let mut made = self;
        match name {
            Name::Main => made.main = Some(n as u32),
            Name::Method => made.method = Some(n as u32),
            Name::All => made.all = Some(n as u32),
            Name::Shapes => made.shapes = Some(n as u32),
            Name::Cycles => made.cycles = Some(n),
            Name::Stack => made.stack = Some(n as u32),
            Name::Memory => made.memory = Some(n as u32),
            Name::Blocks => made.blocks = Some(n as u32),
            Name::BlockWords => made.block_words = Some(n as u32),
            Name::Read => made.read = Some(n as u32),
            Name::Write => made.write = Some(n as u32),
            Name::Micro => made.micro = Some(n as u32),
            Name::Rounds => made.rounds = Some(n as u32),
            Name::Further => made.further = Some(n as u32),
            Name::Facts => made.facts = Some(n as u32),
        }
        made
    }

    /// Whether the options were given that a command requires.
    pub(crate) fn has_required(&self, verb: Verb) -> bool
        ensures { result ≡ has_required verb (values_of self.now) }
    {
        match verb {
            Verb::Link => self.main.is_some(),
            Verb::Bound => self.method.is_some() || self.all.is_some(),
            Verb::Report => self.method.is_some(),
            Verb::Plan | Verb::Cycle => self.rounds.is_some(),
            Verb::Run
            | Verb::Trace
            | Verb::Profile
            | Verb::Check
            | Verb::Loops
            | Verb::Headers
            | Verb::Need
            | Verb::Rtl
            | Verb::Asm
            | Verb::Work => true,
        }
    }

    /// What a machine has and how long it runs, by these options.
    pub(crate) fn settings(&self) -> Settings
        ensures { result ≡ settings_of (values_of self.now) }
    {
        Settings {
            cycles: self.cycles.unwrap_or(1_000_000_000),
            stack: self.stack.unwrap_or(1024),
            memory: self.memory.unwrap_or(262_144),
            blocks: self.blocks.unwrap_or(16),
            block_words: self.block_words.unwrap_or(64),
            read: self.read.unwrap_or(1),
            write: self.write.unwrap_or(2),
        }
    }
}
