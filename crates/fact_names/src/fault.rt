//! Why lines give no facts of a program.
use base::NoMemory;

/// Why lines give no facts of a program.
#[derive(Drop)]
pub enum NameFault {
    /// The line of this number says something of another kind than how often a node is visited in an activation of its
    /// own method.
    Scope(u32),
    /// The line of this number says nothing of the program.
    Line(u32),
    /// There is no memory.
    NoMemory,
}

impl From<NoMemory> for NameFault {
    ghost use Rattle.std.specs.Prelude.{◌≡◌};
    ghost use Rattle.fact_names.specs.declared.fault.NameFault.TheVariants.{NoMemory as Spent};

    ghost from_gives = { λ _ fault. fault ≡ Spent };

    fn from(_: NoMemory) -> Self {
        NameFault::NoMemory
    }
}
