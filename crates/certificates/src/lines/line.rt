//! What the lines of a certificate say.
use crate::lines::loops::LoopLine;

/// What the costs of a section's calls have in them.
#[derive(Clone, Copy)]
pub enum SectionKind {
    /// No loads of the method cache.
    Inside,
    /// The loads of each call.
    Alone,
    /// The loads of the section's regions, and those of each call outside them.
    Loops,
}

/// What a line of a certificate says.
#[derive(Drop)]
pub enum CertLine {
    /// The version of the format.
    Version(u32),
    /// The number of the method that the certificate is about.
    Root(u32),
    /// A section begins: its kind and the number of its method.
    Start(SectionKind, u32),
    /// A node and its potential.
    Node(u32, i128),
    /// A loop.
    Loop(LoopLine),
    /// The bound in cycles, or `None` for `never`.
    Bound(Option<u64>),
}
