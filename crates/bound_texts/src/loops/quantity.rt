//! What the numbers of a text bound.

/// What the numbers of a text bound.
#[derive(Clone, Copy)]
pub(crate) enum Quantity {
    /// How often loops go round, once they are entered.
    Iterations,
    /// How long arrays are.
    Lengths,
}
