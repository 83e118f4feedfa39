//! Words as signed numbers (JVM Specification SE 8, chapter 6).
ghost use Rattle.std.specs.Prelude.{◌≡◌, ◌<◌};
ghost use Rattle.base.specs.Signed.{number_of, holds, sign_extended8, sign_extended16, is_negative, signed_lt, shifted_right};

/// The low 8 bits with their sign, as a word.
pub fn sign_extend8(x: u32) -> u32
    ensures { result ≡ sign_extended8 x }
{
    let low = x % 256;
    if low < 128 { low } else { low + 0xffff_ff00 }
}

/// The low 16 bits with their sign, as a word.
pub fn sign_extend16(x: u32) -> u32
    ensures { result ≡ sign_extended16 x }
{
    let low = x % 65536;
    if low < 32768 { low } else { low + 0xffff_0000 }
}

fn is_negative_word(x: u32) -> bool
    ensures { result ≡ is_negative x }
{
    x > 0x7fff_ffff
}

/// Whether a word is less than another, as signed numbers.
pub fn signed_less(x: u32, y: u32) -> bool
    ensures { result ≡ signed_lt x y }
{
    x.wrapping_add(0x8000_0000) < y.wrapping_add(0x8000_0000)
}

/// A shift to the right that brings in the sign.
pub fn shift_right(x: u32, k: u32) -> u32
    requires { k < 32 }
    ensures { result ≡ shifted_right x k }
{
    if is_negative_word(x) {
        u32::MAX - ((u32::MAX - x) >> k)
    } else {
        x >> k
    }
}

/// 1 for a condition that holds, and 0 for one that doesn't.
pub fn number(holds: bool) -> u32
    ensures { result ≡ number_of holds }
{
    if holds { 1 } else { 0 }
}

/// Whether the opcode of a conditional branch goes to its target, where these are the words below the top and
/// at the top.
pub fn branch_holds(opcode: u8, b: u32, a: u32) -> bool
    ensures { result ≡ holds opcode b a }
{
    match opcode {
        153 | 198 => a == 0,
        154 | 199 => a > 0,
        155 => is_negative_word(a),
        156 => a < 0x8000_0000,
        157 => a > 0 && a < 0x8000_0000,
        158 => a == 0 || is_negative_word(a),
        159 | 165 => b == a,
        160 | 166 => b < a || a < b,
        161 => signed_less(b, a),
        162 => !signed_less(b, a),
        163 => signed_less(a, b),
        164 => !signed_less(a, b),
        _ => false,
    }
}
