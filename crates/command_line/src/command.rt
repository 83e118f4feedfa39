//! Commands.

/// What a machine has and how long it runs.
#[derive(Clone, Copy)]
pub struct Settings {
    /// The run is stopped at the first boundary whose clock is at least this.
    pub cycles: u64,
    /// The words of the stack cache: 256, 512 or 1024.
    pub stack: u32,
    /// The words of main memory.
    pub memory: u32,
    /// The blocks of the method cache.
    pub blocks: u32,
    /// The words of a block.
    pub block_words: u32,
    /// The cycles that a read waits.
    pub read: u32,
    /// The cycles that a write waits.
    pub write: u32,
}

/// A command; a name and a file are meant by the number of their word.
#[derive(Clone, Copy)]
pub enum Command {
    /// The class files are the words from `first` on.
    Link {
        main: u32,
        first: u32,
    },
    Run {
        settings: Settings,
        image: u32,
    },
    Trace {
        settings: Settings,
        micro: bool,
        image: u32,
    },
    /// The image runs, and what the activations of its methods took is told beside their bounds.
    Profile {
        settings: Settings,
        image: u32,
        bounds: u32,
    },
    Bound {
        settings: Settings,
        method: u32,
        image: u32,
        bounds: u32,
    },
    /// The bound of a method by facts, which are the file of a word.
    BoundWith {
        settings: Settings,
        method: u32,
        facts: u32,
        image: u32,
        bounds: u32,
    },
    /// The bounds of all methods.
    BoundAll {
        settings: Settings,
        image: u32,
        bounds: u32,
    },
    /// The bound of a method in each shape of the method cache, whatever shape the settings have.
    BoundShapes {
        settings: Settings,
        method: u32,
        image: u32,
        bounds: u32,
    },
    /// Where the bound of a method comes from, by lines of the source.
    Report {
        settings: Settings,
        method: u32,
        image: u32,
        bounds: u32,
    },
    /// Whether the bound of each slot's method fits the slot, of a table of slots; the class files are the words from `first` on.
    Plan {
        settings: Settings,
        rounds: u32,
        table: u32,
        bounds: u32,
        first: u32,
    },
    /// So many rounds of a table of slots are run; the class files are the words from `first` on.
    Cycle {
        settings: Settings,
        rounds: u32,
        table: u32,
        first: u32,
    },
    Check {
        settings: Settings,
        image: u32,
        bounds: u32,
        certificate: u32,
    },
    /// The check of a certificate by facts, which are the file of a word.
    CheckWith {
        settings: Settings,
        facts: u32,
        image: u32,
        bounds: u32,
        certificate: u32,
    },
    /// The image's loops that count, by constants alone or by what is known further.
    Loops {
        further: bool,
        image: u32,
    },
    /// The bounds of the image's loops as a text, by lines of sources where the second operand gives them; there are one or two
    /// operands.
    Headers {
        image: u32,
        operands: u32,
    },
    /// What a run of the image needs of memory.
    Memory {
        image: u32,
        bounds: u32,
        sizes: u32,
    },
    /// The machine with the image in it, as a circuit.
    Rtl {
        settings: Settings,
        image: u32,
    },
    Asm {
        text: u32,
    },
    Work {
        count: u32,
    },
}
