//! What is answered of an analysis: why there is none, and what is said of a certificate that holds.

use base::NoMemory;

/// Why a program isn't analysed.
#[derive(Drop)]
pub enum AnalysisFault {
    /// The method of this number, whose name has these bytes, is the first whose code takes more blocks of the method cache than there
    /// are: so many.
    MethodTooLong(u32, Vec<u8>, u32),
    /// The line of this number, counted from 1, is the first of the bounds that is none of their grammar.
    BadBounds(u32),
    /// The line of this number is the first that bounds a loop which a line before it bounds.
    TwiceBound(u32),
    /// There was no memory.
    NoMemory,
}

/// What is said of a certificate that holds.
#[derive(Drop)]
pub struct Held {
    /// The number of the method that it is about.
    pub root: u32,
    /// The bytes of the method's name.
    pub name: Vec<u8>,
    /// The bound in cycles, or `None` where the method never ends.
    pub bound: Option<u64>,
}
