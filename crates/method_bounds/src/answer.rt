//! What is answered of a method.
use answer_lines::BoundCause;

/// What is answered of a method whose bound is asked for.
#[derive(Clone, Copy)]
pub enum BoundAnswer {
    /// It takes at most so many cycles.
    Cycles(u64),
    /// It never ends.
    Never,
    /// No bound of it is given, for this cause.
    Refused(BoundCause),
}
