//! The operations that have a code of their own.

/// What a plain microinstruction does.
#[derive(Clone, Copy, PartialEq, Eq)]
pub enum Operation {
    Nop,
    Pop,
    Dup,
    Add,
    Sub,
    And,
    Or,
    Xor,
    Shl,
    Shr,
    Ushr,
    Mul,
    Slt,
    Sltu,
    Ldo,
    Ldo8,
    Ldo16,
    Ldl,
    Stl,
    Ld0,
    Ld1,
    Ld2,
    Ld3,
    St0,
    St1,
    St2,
    St3,
    Ldvp,
    Stvp,
    Ldsp,
    Stsp,
    Ldjpc,
    Stjpc,
    Star,
    Ldmi,
    Stmi,
    Stmra,
    Stmwa,
    Stmwd,
    Wait,
    Ldmrd,
    Stbc,
    Jbr,
    Jbg,
    Ldin,
    Stout,
    Hltb,
    Hltu,
}

macro_rules! by_code {
    ($code:expr; $($number:literal $operation:ident,)* _ $last:ident) => {
        match $code {
            $($number => Operation::$operation,)*
            _ => Operation::$last,
        }
    };
}
