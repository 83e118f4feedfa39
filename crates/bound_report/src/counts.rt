//! What one greatest walk of a method does, and how often the method's number counts.

/// A node of a method on its walk.
#[derive(Clone, Copy)]
pub struct NodeCount {
    /// Twice the place of its instruction, or one more for the raise step at it.
    pub node: u32,
    pub visits: u128,
    /// What it takes by itself at a visit, in cycles.
    pub own: u64,
    /// The method whose number is added at each visit, where it is an invoke of which a method can end.
    pub target: Option<u32>,
    /// What is paid at each visit for loads, in cycles: those of the target, and that of the caller when control comes back.
    pub loads: u128,
}

/// A method with a walk: its nodes by number, and of its loops in the order of their headers how often each is entered and what an
/// entry of it is charged, in cycles.
#[derive(Drop)]
pub struct MethodCounts {
    pub method: u32,
    /// How often the method's number counts in that of the root.
    pub times: u128,
    pub nodes: Vec<NodeCount>,
    pub entered: Vec<u128>,
    pub fees: Vec<u64>,
}
