//! Why bytes are no class file.

use base::FormatFault;

/// Why no class file was read.
#[derive(Clone, Copy)]
pub enum ClassFault {
    /// The first eight bytes are a header of this major version, which isn't read.
    Version(u16),
    /// The bytes are no class file.
    Bad,
    /// There was no memory.
    NoMemory,
}

impl From<FormatFault> for ClassFault {
    ghost use Rattle.std.specs.Prelude.{◌≡◌};
    ghost use Rattle.class_file.specs.Faults.{class_fault};

    ghost from_gives = { λ fault answer. answer ≡ class_fault fault };

    fn from(fault: FormatFault) -> Self {
        match fault {
            FormatFault::Bad => ClassFault::Bad,
            FormatFault::NoMemory => ClassFault::NoMemory,
        }
    }
}
