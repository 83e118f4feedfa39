//! What the binary operations make of B and A.

ghost use Rattle.std.specs.Prelude.{◌≡◌, ◌<◌, ◌^◌};
ghost use Rattle.base.specs.Signed.{sign_extended16, sign_extended8, signed_lt};
ghost use Rattle.jop_core.specs.Operations.{combined};
ghost use Rattle.microcode.specs.declared.isa.operation.Operation.TheVariants.{Shl, Shr, Slt, Sltu, Ushr};
ghost use Rattle.netlist.specs.Meaning.{bit_of, word_on};
ghost use Rattle.circuit_build.specs.Wiring.{Gives};

use circuit_build::{Logic, constant};
use netlist::Net;

/// The bit of a word's sign.
const SIGN: u64 = 1 << 31;

/// Whether x is less than y, as signed numbers of 32 bits: moved up by 2^31 they compare as they stand.
pub fn signed_less(logic: &mut Logic, x: Net, y: Net) -> Net
    ensures width { result.width ≡ 1 }
    ensures gives { Gives logic.old logic.new
        (λ ws. word_on ws x < 2 ^ 32 → word_on ws y < 2 ^ 32 → word_on ws result ≡ bit_of (signed_lt (word_on ws x) (word_on ws y))) }
{
    let above_x = logic.xor(x, constant(32, SIGN));
    let above_y = logic.xor(y, constant(32, SIGN));
    logic.less(above_x, above_y)
}

/// The low 8 bits of a word with their sign, as a word.
pub(crate) fn sign_extended_byte(logic: &mut Logic, x: Net) -> Net
    ensures width { result.width ≡ 32 }
    ensures gives { Gives logic.old logic.new (λ ws. word_on ws result ≡ sign_extended8 (word_on ws x)) }
{
    let low = logic.part(x, 0, 8);
    let sign = logic.part(x, 7, 1);
    let above = logic.choose(sign, constant(24, 0xff_ffff), constant(24, 0));
    logic.join(above, low)
}

/// The low 16 bits of a word with their sign, as a word.
pub(crate) fn sign_extended_half(logic: &mut Logic, x: Net) -> Net
    ensures width { result.width ≡ 32 }
    ensures gives { Gives logic.old logic.new (λ ws. word_on ws result ≡ sign_extended16 (word_on ws x)) }
{
    let low = logic.part(x, 0, 16);
    let sign = logic.part(x, 15, 1);
    let above = logic.choose(sign, constant(16, 0xffff), constant(16, 0));
    logic.join(above, low)
}

/// x moved up by the low 5 bits of y, with zeros from below.
pub(crate) fn shifted_left(logic: &mut Logic, x: Net, y: Net) -> Net
    requires { x.width ≡ 32 }
    ensures width { result.width ≡ 32 }
    ensures gives { Gives logic.old logic.new (λ ws. word_on ws result ≡ combined Shl (word_on ws x) (word_on ws y)) }
{
    let by = logic.part(y, 0, 5);
    logic.left(x, by)
}

/// x moved down by the low 5 bits of y, with its sign from above.
pub(crate) fn shifted_right(logic: &mut Logic, x: Net, y: Net) -> Net
    requires { x.width ≡ 32 }
    ensures width { result.width ≡ 32 }
    ensures gives { Gives logic.old logic.new
        (λ ws. word_on ws x < 2 ^ 32 → word_on ws result ≡ combined Shr (word_on ws x) (word_on ws y)) }
{
    let by = logic.part(y, 0, 5);
    let sign = logic.part(x, 31, 1);
    let signs = logic.choose(sign, constant(32, 0xffff_ffff), constant(32, 0));
    let both = logic.join(signs, x);
    let moved = logic.right(both, by);
    logic.part(moved, 0, 32)
}

/// x moved down by the low 5 bits of y, with zeros from above.
pub(crate) fn shifted_right_unsigned(logic: &mut Logic, x: Net, y: Net) -> Net
    ensures width { result.width ≡ x.width }
    ensures gives { Gives logic.old logic.new (λ ws. word_on ws result ≡ combined Ushr (word_on ws x) (word_on ws y)) }
{
    let by = logic.part(y, 0, 5);
    logic.right(x, by)
}

/// 1 where x is less than y as signed numbers of 32 bits, else 0, as a word.
pub(crate) fn compared_signed(logic: &mut Logic, x: Net, y: Net) -> Net
    ensures width { result.width ≡ 32 }
    ensures gives { Gives logic.old logic.new
        (λ ws. word_on ws x < 2 ^ 32 → word_on ws y < 2 ^ 32 → word_on ws result ≡ combined Slt (word_on ws x) (word_on ws y)) }
{
    let is_less = signed_less(logic, x, y);
    logic.fit(is_less, 32)
}

/// 1 where x is less than y, else 0, as a word.
pub(crate) fn compared_unsigned(logic: &mut Logic, x: Net, y: Net) -> Net
    ensures width { result.width ≡ 32 }
    ensures gives { Gives logic.old logic.new (λ ws. word_on ws result ≡ combined Sltu (word_on ws x) (word_on ws y)) }
{
    let is_less = logic.less(x, y);
    logic.fit(is_less, 32)
}
