//! Why no text of bounds is made.

use base::NoMemory;
use bound_texts::sources::SourceFault;

/// Why no text of bounds is made.
#[derive(Drop)]
pub enum HeaderFault {
    /// The line of this number, counted from 1, is the first that is none of the grammar.
    BadLine(u32),
    /// The line of this number is the first that bounds what a line before it bounds.
    TwiceLine(u32),
    /// The first bound that is said of a line of the program's, or of a place of a method of it, that heads no loop: `FILE:LINE`
    /// or `NAME PC`.
    Stray(Vec<u8>),
    /// There was no memory.
    NoMemory,
}

impl From<SourceFault> for HeaderFault {
    ghost use Rattle.std.specs.Prelude.{◌≡◌};
    ghost use Rattle.source_headers.specs.Faults.{header_fault};

    ghost from_gives = { λ fault answer. answer ≡ header_fault fault };

    fn from(fault: SourceFault) -> Self {
        match fault {
            SourceFault::Line(number) => HeaderFault::BadLine(number),
            SourceFault::Twice(number) => HeaderFault::TwiceLine(number),
            SourceFault::NoMemory => HeaderFault::NoMemory,
        }
    }
}

impl From<NoMemory> for HeaderFault {
    ghost use Rattle.std.specs.Prelude.{◌≡◌};
    ghost use Rattle.source_headers.specs.declared.fault.HeaderFault.TheVariants.{NoMemory as Spent};

    ghost from_gives = { λ _ fault. fault ≡ Spent };

    fn from(_: NoMemory) -> Self {
        HeaderFault::NoMemory
    }
}
