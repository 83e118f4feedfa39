//! A loop that counts.

/// The loop of a method whose header is the instruction at a place, in bytes of code, and how often it goes round at most between an
/// entry and the next leaving.
#[derive(Clone, Copy)]
pub struct FoundLoop {
    pub method: u32,
    pub place: u32,
    pub bound: u32,
}
