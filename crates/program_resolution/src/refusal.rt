//! Why files can't be linked.

use base::NoMemory;
use program_tables::{Item, Site, Why};

/// Why files aren't a program. Files are counted from 0, and places in a file as they stand there.
#[derive(Clone, Copy)]
pub enum ProgramRefusal {
    /// The file is no class file, and its version isn't the reason.
    BadClass(u32),
    /// The file begins with the header of a class file of this major version, which isn't read.
    UnsupportedVersion(u32, u16),
    /// The file's class has the name of the class of this number: of a core class, of one of a file before it, or of the class
    /// that is run, which is the last.
    Duplicate(u32, u32),
    /// This machine doesn't support the item, which stands at that place of the file.
    Unsupported(u32, Site, Item),
    /// What the pool entry of this index names in the file can't be resolved.
    Unresolved(u32, u32, Why),
    /// The file's class stands wrongly in the hierarchy: it has no superclass, is above itself, has a final class or an interface
    /// as superclass or a class as superinterface, is an interface whose superclass isn't `java/lang/Object`, or has a method
    /// that overrides a final one.
    BadHierarchy(u32),
    /// None of the files is the named class, or it doesn't declare `public static void main(String[])`.
    NoMain,
    /// So many are more than the limit.
    TooManyClasses(u32, u32),
    /// There was no memory.
    NoMemory,
}

impl From<NoMemory> for ProgramRefusal {
    ghost use Rattle.std.specs.Prelude.{◌≡◌};
    ghost use Rattle.program_resolution.specs.declared.refusal.ProgramRefusal.TheVariants as answers;

    ghost from_gives = { λ _ refusal. refusal ≡ answers.NoMemory };

    fn from(_: NoMemory) -> Self {
        ProgramRefusal::NoMemory
    }
}
