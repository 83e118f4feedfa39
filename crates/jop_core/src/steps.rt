//! The microinstructions of the ROM, decoded once and for all: a cycle reads its own from a table, as
//! simulators do, and decodes no word.
ghost use Rattle.std.specs.Prelude.{◌≡◌, ◌<◌, Some, length, slice_index, slice_get};
ghost use Rattle.microcode.specs.Isa.Words.{micro_of};
ghost use Rattle.microcode.specs.declared.TheConstants.{WORDS};
ghost use Rattle.jop_core.specs.Steps.{meaning, HasTarget};

use microcode::addresses::*;
use microcode::names::*;

/// What a microinstruction does, apart from its flags, under the names of `microcode::isa`: the operations that
/// have a code of their own, and those with a place, a number or an address. Those that a cycle tells apart
/// from the others stand last, so that one comparison does.
#[derive(Clone, Copy)]
pub(crate) enum Action {
    Nop,
    Pop,
    Dup,
    Add,
    Sub,
    And,
    Or,
    Xor,
    Shl,
    Shr,
    Ushr,
    Mul,
    Slt,
    Sltu,
    Ldo,
    Ldo8,
    Ldo16,
    Ldl,
    Stl,
    Ld0,
    Ld1,
    Ld2,
    Ld3,
    St0,
    St1,
    St2,
    St3,
    Ldvp,
    Stvp,
    Ldsp,
    Stsp,
    Ldjpc,
    Stjpc,
    Star,
    Ldmi,
    Stmi,
    Stmra,
    Stmwa,
    Stmwd,
    Ldmrd,
    Stbc,
    Jbr,
    Jbg,
    Hltb,
    Hltu,
    Stm(u16),
    Ldm(u16),
    Ldi(u16),
    Ldin,
    Stout,
    Wait,
    Bz(u16),
    Bnz(u16),
    Jmp(u16),
}

/// What follows an action of a word with a flag.
#[derive(Clone, Copy)]
pub(crate) struct Flags {
    /// The next byte of the method is shifted into the operand register.
    pub opd: bool,
    /// The next byte of the method is the opcode to run.
    pub nxt: bool,
}

/// A microinstruction, decoded. Most have no flag.
#[derive(Clone, Copy)]
pub(crate) struct Step {
    pub action: Action,
    pub flags: Option<Flags>,
}

macro_rules! flags {
    () => {
        None
    };
    (opd) => {
        Some(Flags {
            opd: true,
            nxt: false,
        })
    };
    (nxt) => {
        Some(Flags {
            opd: false,
            nxt: true,
        })
    };
    (opd nxt) => {
        Some(Flags {
            opd: true,
            nxt: true,
        })
    };
}

macro_rules! flagged {
    ($action:expr; $($flag:ident)*) => {
        Step {
            action: $action,
            flags: flags!($($flag)*),
        }
    };
}

macro_rules! step {
    (Stm $place:tt $($flag:ident)*) => {
        flagged!(Action::Stm($place); $($flag)*)
    };
    (Ldm $place:tt $($flag:ident)*) => {
        flagged!(Action::Ldm($place); $($flag)*)
    };
    (Ldi $number:tt $($flag:ident)*) => {
        flagged!(Action::Ldi($number); $($flag)*)
    };
    (Bz $to:ident) => {
        flagged!(Action::Bz($to);)
    };
    (Bnz $to:ident) => {
        flagged!(Action::Bnz($to);)
    };
    (Jmp $to:ident) => {
        flagged!(Action::Jmp($to);)
    };
    ($operation:ident $($flag:ident)*) => {
        flagged!(Action::$operation; $($flag)*)
    };
}

/// What a further word of the ROM is, behind those of the rows.
const REST: Step = flagged!(Action::Nop;);

/// The steps of the words of the rows, and of the 309 further ones, so that each address below 2,048 has one
/// and a cycle needs no test for it.
macro_rules! steps {
    ($($row:ident = $([$($part:tt)*])*;)*) => {
        [
            $($(step!($($part)*),)*)*
            REST, REST, REST, REST, REST, REST, REST, REST, REST, REST, REST, REST, REST,
            REST, REST, REST, REST, REST, REST, REST, REST, REST, REST, REST, REST, REST,
            REST, REST, REST, REST, REST, REST, REST, REST, REST, REST, REST, REST, REST,
            REST, REST, REST, REST, REST, REST, REST, REST, REST, REST, REST, REST, REST,
            REST, REST, REST, REST, REST, REST, REST, REST, REST, REST, REST, REST, REST,
            REST, REST, REST, REST, REST, REST, REST, REST, REST, REST, REST, REST, REST,
            REST, REST, REST, REST, REST, REST, REST, REST, REST, REST, REST, REST, REST,
            REST, REST, REST, REST, REST, REST, REST, REST, REST, REST, REST, REST, REST,
            REST, REST, REST, REST, REST, REST, REST, REST, REST, REST, REST, REST, REST,
            REST, REST, REST, REST, REST, REST, REST, REST, REST, REST, REST, REST, REST,
            REST, REST, REST, REST, REST, REST, REST, REST, REST, REST, REST, REST, REST,
            REST, REST, REST, REST, REST, REST, REST, REST, REST, REST, REST, REST, REST,
            REST, REST, REST, REST, REST, REST, REST, REST, REST, REST, REST, REST, REST,
            REST, REST, REST, REST, REST, REST, REST, REST, REST, REST, REST, REST, REST,
            REST, REST, REST, REST, REST, REST, REST, REST, REST, REST, REST, REST, REST,
            REST, REST, REST, REST, REST, REST, REST, REST, REST, REST, REST, REST, REST,
            REST, REST, REST, REST, REST, REST, REST, REST, REST, REST, REST, REST, REST,
            REST, REST, REST, REST, REST, REST, REST, REST, REST, REST, REST, REST, REST,
            REST, REST, REST, REST, REST, REST, REST, REST, REST, REST, REST, REST, REST,
            REST, REST, REST, REST, REST, REST, REST, REST, REST, REST, REST, REST, REST,
            REST, REST, REST, REST, REST, REST, REST, REST, REST, REST, REST, REST, REST,
            REST, REST, REST, REST, REST, REST, REST, REST, REST, REST, REST, REST, REST,
            REST, REST, REST, REST, REST, REST, REST, REST, REST, REST, REST, REST, REST,
            REST, REST, REST, REST, REST, REST, REST, REST, REST, REST,
        ]
    };
}

/// All words of the ROM, decoded.
static STEPS: [Step; 2048] = microcode::microcode!(steps);

/// The microinstruction at an address.
pub(crate) fn step_at(address: u16) -> &'static Step
    requires { address < 2048 }
    ensures micro { micro_of (slice_index WORDS address) ≡ Some (meaning result.now) }
    ensures target { HasTarget result.now.action }
{
    step_among(&STEPS, address)
}

fn step_among(steps: &[Step], address: u16) -> &Step
    requires { address < length steps.now }
    ensures { slice_get steps.now address ≡ Some result.now }
{
    &steps[address as usize]
}
