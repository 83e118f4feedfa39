//! Why files aren't linked.

use base::NoMemory;
use bytecode_verifier::MethodRule;
use image_layout::Counted;
use program_resolution::ProgramRefusal;

/// Why files aren't linked. Files are counted from 0, and methods as they stand in their file.
#[derive(Clone, Copy)]
pub enum LinkRefusal {
    /// They are no program.
    Resolving(ProgramRefusal),
    /// In this file and method, at this place of the code, this rule of the verifier fails first.
    NotVerified(u32, u32, u32, MethodRule),
    /// The image has so many, past the limit.
    TooLarge(Counted, u64, u64),
    /// The file of the image would have so many bytes, past the limit.
    FileTooLarge(u64, u64),
    /// There was no memory.
    NoMemory,
}

impl From<NoMemory> for LinkRefusal {
    ghost use Rattle.std.specs.Prelude.{◌≡◌};
    ghost use Rattle.jopizer.specs.declared.refusal.LinkRefusal.TheVariants as answers;

    ghost from_gives = { λ _ refusal. refusal ≡ answers.NoMemory };

    fn from(_: NoMemory) -> Self {
        LinkRefusal::NoMemory
    }
}
