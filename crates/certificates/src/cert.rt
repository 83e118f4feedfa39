//! Certificates.
ghost use Rattle.std.specs.Prelude.{◌≡◌};

use crate::SectionKind;
use section_check::section::Section;
use std::marker::Model;

/// The section of a method, by the method's number. A node 2p is the instruction at place p, and a node
/// 2p + 1 the raise step at it.
#[derive(Drop)]
pub struct CertSection {
    /// What the costs of its calls have in them.
    pub kind: SectionKind,
    /// The number of the method.
    pub method: u32,
    /// The nodes with their potentials, and the loops.
    pub section: Section,
}

/// What stands once in a certificate: a method with a section inside, and one with a section of another
/// kind.
#[derive(Drop, PartialEq, Eq, Hash)]
pub struct SectionSort {
    /// The number of the method.
    pub method: u32,
    /// Whether the section is inside.
    pub inside: bool,
}

/// A certificate: the number of the format's version, the number of the method that it is about, the
/// sections of that method and of those that it calls, and the bound in cycles, which is `None` where the
/// method never ends.
#[derive(Drop)]
pub struct Cert {
    version: u32,
    root: u32,
    sections: Vec<CertSection>,
    bound: Option<u64>,
}

impl Model for Cert {
    ghost use Rattle.certificates.specs.Certificate.{Certificate};

    ghost Value = { Certificate };

    ghost view = { λ c. record { version = c.version; root = c.root; sections = c.sections.items; bound = c.bound } };
}

impl Cert {
    /// The certificate of these parts.
    pub fn new(version: u32, root: u32, sections: Vec<CertSection>, bound: Option<u64>) -> Self
        ensures { result ≡ record { version = version; root = root; sections = sections.items; bound = bound } }
    {
        Cert {
            version,
            root,
            sections,
            bound,
        }
    }

    /// The version of the format, 1 or 2.
    pub fn version(&self) -> u32
        ensures { result ≡ self.now.version }
    {
        self.version
    }

    /// The number of the method that the certificate is about.
    pub fn root(&self) -> u32
        ensures { result ≡ self.now.root }
    {
        self.root
    }

    /// The sections, in the order in which they are to be checked.
    pub fn sections(&self) -> &[CertSection]
        ensures { result.now ≡ self.now.sections }
    {
        self.sections.as_slice()
    }

    /// The bound in cycles, or `None` where the method never ends.
    pub fn bound(&self) -> Option<u64>
        ensures { result ≡ self.now.bound }
    {
        self.bound
    }

    /// The sections, given back.
    pub fn into_sections(self) -> Vec<CertSection>
        ensures { result.items ≡ self.sections }
    {
        self.sections
    }
}
