//! What is known of methods.

/// What is known of a method. Numbers are cycles, and none where the method can't end; those past 64 bits count as 2^64.
#[derive(Clone, Copy)]
pub struct Known {
    /// Whether all that may run while it does fits the method cache together.
    pub fits: bool,
    /// Its number without loads where it does, and else that with the loads of loops.
    pub asked: Option<u128>,
    /// Its number with all loads.
    pub full: Option<u128>,
    /// Whether one of its numbers is past 64 bits, or iterations of its loops are so together.
    pub too_large: bool,
}

/// Of a method of which nothing is known.
pub const UNKNOWN: Known = Known {
    fits: false,
    asked: None,
    full: None,
    too_large: false,
};
