//! The nets of a word of the ROM that is taken apart.

ghost use Rattle.std.specs.Prelude.{◌≡◌};

use netlist::Net;

/// What a word of the ROM says.
#[derive(Clone, Copy)]
pub struct Word {
    /// Whether it is an operation that has a code of its own, and the code.
    pub is_plain: Net,
    pub code: Net,
    /// Whether it is `stm`, `ldm` or `ldi`, and the place or number of these.
    pub is_stm: Net,
    pub is_ldm: Net,
    pub is_ldi: Net,
    pub number: Net,
    /// Whether it is `bz`, `bnz` or `jmp`, and where these go.
    pub is_bz: Net,
    pub is_bnz: Net,
    pub is_jmp: Net,
    pub target: Net,
    /// The flags.
    pub opd: Net,
    pub nxt: Net,
    pub ghost is_plain_width: { is_plain.width ≡ 1 },
    pub ghost is_ldi_width: { is_ldi.width ≡ 1 },
    pub ghost number_width: { number.width ≡ 5 },
    pub ghost target_width: { target.width ≡ 11 },
}
