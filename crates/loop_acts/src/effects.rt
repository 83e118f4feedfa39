//! What instructions do, as far as loops that count go (JVM Specification SE 8, 2.6.1 and 6.5).

use code_scan::Comparison;

/// An int branch that compares a local variable with a limit: the place behind it, the variable, the branch's offset, when it is
/// taken, and the limit.
#[derive(Clone, Copy)]
pub struct Test {
    pub next: u32,
    pub local: u32,
    pub offset: i32,
    pub taken: Comparison,
    pub limit: i32,
}

/// What an instruction does.
#[derive(Clone, Copy)]
pub enum Act {
    Test(Test),
    /// A number is added to the int of the local variable.
    Step(u32, i32),
    /// An int is stored into the local variable, a constant where one is told.
    Set(u32, Option<i32>),
    SetLong(u32),
    SetReference(u32),
    Other,
}
