//! The names of operations and rows.

ghost use Rattle.std.specs.Prelude.{◌≡◌, ◌==◌, option_map, position};
ghost use Rattle.microcode_listing.specs.Names.{operation_text, row_number, row_text};

use microcode::{ROWS, microcode};

/// The names of the operations, by their codes.
#[rattlefmt::skip]
static OPERATIONS: [&str; 48] = [
    "nop", "pop", "dup", "add", "sub", "and", "or", "xor", "shl", "shr", "ushr", "mul",
    "slt", "sltu", "ldo", "ldo8", "ldo16", "ldl", "stl", "ld0", "ld1", "ld2", "ld3", "st0",
    "st1", "st2", "st3", "ldvp", "stvp", "ldsp", "stsp", "ldjpc", "stjpc", "star", "ldmi", "stmi",
    "stmra", "stmwa", "stmwd", "wait", "ldmrd", "stbc", "jbr", "jbg", "ldin", "stout", "hltb", "hltu",
];

macro_rules! names {
    ($($row:ident = $([$($part:tt)*])*;)*) => {
        [$(stringify!($row)),*]
    };
}

/// The names of the rows, in the order of their addresses.
static NAMES: [&str; 148] = microcode!(names);

/// The name of the operation of a code, and nothing for a code that no operation has.
pub(crate) fn operation_name(code: u8) -> &'static str
    ensures { result.now ≡ operation_text code }
{
    if code < 48 {
        OPERATIONS[code as usize]
    } else {
        ""
    }
}

/// Which row begins at an address; 148 where none does.
#[tactic(auto, unfolding(crate::specs::Names::row_number))]
fn row_number(address: u16) -> usize
    ensures { result ≡ row_number address }
{
    number_among(&ROWS, address).unwrap_or(148)
}

fn number_among(rows: &[(u16, u16)], address: u16) -> Option<usize>
    ensures { result ≡ position (λ row. row.0 == address) rows.now }
{
    rows.iter().position(|row| row.0 == address)
}

/// The name of the row that begins at an address, if one does.
pub(crate) fn row_name(address: u16) -> Option<&'static str>
    ensures { option_map (λ name. name.now) result ≡ row_text address }
{
    let number = row_number(address);
    if number < 148 {
        Some(NAMES[number])
    } else {
        None
    }
}
