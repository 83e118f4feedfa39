//! Greatest walks with the sections that show them.

use section_check::section::Section;
use std::alloc::AllocError;
use std::marker::Model;

/// What the greatest walk costs, in cycles, and a section of that value.
#[derive(Drop)]
pub struct Solved {
    value: u64,
    section: Section,
}

impl Model for Solved {
    ghost use Rattle.path_solver.specs.Solution.{Solution};

    ghost Value = { Solution };

    ghost view = { λ s. record { value = s.value; section = s.section } };
}

impl Solved {
    ghost use Rattle.std.specs.Prelude.{◌≡◌, length};
    ghost use Rattle.section_check.specs.Regions.{with_regions};

    /// A value with a section.
    pub(crate) fn new(value: u64, section: Section) -> Self
        ensures { result ≡ record { value = value; section = section } }
    {
        Solved { value, section }
    }

    /// What the greatest walk costs, in cycles.
    pub fn value(&self) -> u64
        ensures { result ≡ self.now.value }
    {
        self.value
    }

    /// The section that shows that no walk costs more.
    pub fn section(&self) -> &Section
        ensures { result.now ≡ self.now.section }
    {
        &self.section
    }

    /// The same, with the section's loops marked as regions of which it is said that they are.
    pub fn with_regions(self, regions: &[bool]) -> Solved
        requires { length regions.now ≡ length self.section.loops }
        ensures { result ≡ record self { section = with_regions self.section regions.now } }
    {
        let Solved { value, section } = self;
        Solved {
            value,
            section: section.with_regions(regions),
        }
    }

    /// The section alone.
    pub fn into_section(self) -> Section
        ensures { result ≡ self.section }
    {
        let Solved { value: _, section } = self;
        section
    }
}

/// What the greatest walk costs, without a section.
#[derive(Clone, Copy)]
pub struct Greatest {
    /// In cycles, and none where it exceeds 64 bits.
    pub value: Option<u64>,
    /// Whether iterations exceed 64 bits together, one of each loop that holds a node from which an exit
    /// is reached.
    pub turns_exceed: bool,
}

/// Why there is no solution.
#[derive(Clone, Copy, Debug, PartialEq, Eq)]
pub enum SolveFault {
    /// A walk exceeds 64 bits, or iterations do together, one of each loop that holds a node from which
    /// an exit is reached.
    TooLarge,
    /// There is no memory.
    NoMemory,
}

impl From<AllocError> for SolveFault {
    ghost use Rattle.std.specs.Prelude.{◌≡◌};
    ghost use Rattle.path_solver.specs.declared.solved.SolveFault.TheVariants.{NoMemory};

    ghost from_gives = { λ _ e. e ≡ NoMemory };

    fn from(_: AllocError) -> Self {
        SolveFault::NoMemory
    }
}
