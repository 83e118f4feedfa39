//! How a command ended, as it is said.

/// The counts of a machine.
#[derive(Clone, Copy)]
pub struct Counts {
    pub clock: u64,
    pub hits: u64,
    pub misses: u64,
}

/// What a run of a cyclic executive counted of the slots' activations that ended, and the cycles of the machine.
#[derive(Clone, Copy)]
pub struct SlotCounts {
    pub slots: u64,
    /// Those that took more cycles than their length.
    pub late: u64,
    /// The cycles by which the others stayed below theirs.
    pub idle: u128,
    /// All cycles of the run.
    pub clock: u64,
}

/// The sizes of a linked image.
#[derive(Clone, Copy)]
pub struct Sizes {
    /// All classes of the program.
    pub classes: u32,
    /// Its methods with code.
    pub methods: u32,
    /// The words of the image.
    pub words: u32,
    /// The bytes of the image.
    pub bytes: u64,
}

/// The line that says how a command ended. Texts are bytes, and names in them those of their Utf8 entries.
#[derive(Clone, Copy)]
pub enum Line<'a> {
    /// The program returned from boot.
    Ended(Counts),
    /// The program ended with an object of this class that nothing caught.
    Uncaught(&'a [u8], Counts),
    /// The run was stopped at the given count of cycles.
    Spent(Counts),
    /// The executive returned from boot.
    CycleEnded(SlotCounts),
    /// The executive ended with an object of this class that nothing caught.
    CycleUncaught(&'a [u8], SlotCounts),
    /// The run of the executive was stopped at the given count of cycles.
    CycleSpent(SlotCounts),
    /// The files were linked.
    Linked(Sizes),
    /// The words give no command, from the word of this number on.
    Usage(u32),
    /// The files of the operands up to this one have this sum of lengths in bytes.
    TooBig(&'a [u8], u128),
    BadImage,
    /// The first word at which an image has others than its class files link to, of which one may be missing.
    Differs {
        word: u32,
        kept: Option<u32>,
        linked: Option<u32>,
    },
    /// The method of this name has more blocks than the method cache.
    MethodTooLong {
        name: &'a [u8],
        blocks: u32,
        limit: u32,
    },
    /// The image has more words than memory.
    MemoryTooSmall {
        words: u32,
        given: u32,
    },
    /// No circuit of the image is made.
    NoCircuit,
    Link(LinkLine<'a>),
    Asm(AsmLine<'a>),
    ReadFault,
    WriteFault,
    NoMemory,
}

/// Why files don't link. Files are counted from 0.
#[derive(Clone, Copy)]
pub enum LinkLine<'a> {
    BadClass(u32),
    /// The file, and its major version.
    UnsupportedVersion(u32, u16),
    /// The file, and the name of its class.
    Duplicate(u32, &'a [u8]),
    /// The file, where the item stands in it, and the item's name.
    Unsupported(u32, Place, &'a [u8]),
    /// The file, its pool entry, why that isn't resolved, and what it names.
    Unresolved(u32, u32, &'a [u8], Named<'a>),
    BadHierarchy(u32),
    NoMain,
    /// The file, the method and the place in its code at which there is no typing, and the rule that is broken.
    NotVerified(u32, u32, u32, &'a [u8]),
    /// What is counted, its count, and the limit.
    TooLarge(&'a [u8], u64, u64),
}

/// Why a text of microcode isn't assembled.
#[derive(Clone, Copy)]
pub enum AsmLine<'a> {
    /// The line of the text, counted from 1, and the rule that is broken.
    Broken(u32, &'a [u8]),
    /// How many words there are, which are too many.
    TooLong(u32),
}

/// Where an item stands in a class file.
#[derive(Clone, Copy)]
pub enum Place {
    Class,
    Field(u32),
    Method(u32),
    /// A method, and a place in its code.
    Code(u32, u32),
}

/// What a pool entry names.
#[derive(Clone, Copy)]
pub enum Named<'a> {
    Class(&'a [u8]),
    /// A class, a name and a descriptor.
    Member(&'a [u8], &'a [u8], &'a [u8]),
}
