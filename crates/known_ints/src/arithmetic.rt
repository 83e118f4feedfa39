//! What is computed of two ints (JVM Specification SE 8, 6.5).

ghost use Rattle.std.specs.Prelude.{◌≡◌, ◌≢◌, ◌↔◌, ℤ, pos, IsTrue, Some};
ghost use Rattle.known_ints.specs.Arithmetic.{IsComputed, Takes};

use crate::rows::Arithmetic;

/// The quotient, towards zero; that of the least int by -1 wraps.
fn quotient(y: i32, x: i32) -> i32
    requires { y ≢ pos 0 }
    ensures { IsComputed Arithmetic.Quotient y x result }
{
    if y == -1 { x.wrapping_neg() } else { x / y }
}

/// A sum, a difference, a product, a quotient, or what is computed bit by bit.
fn combined(arithmetic: Arithmetic, y: i32, x: i32) -> i32
    requires { Takes arithmetic y }
    ensures { IsComputed arithmetic y x result }
{
    match arithmetic {
        Arithmetic::Sum => x.wrapping_add(y),
        Arithmetic::Difference => x.wrapping_sub(y),
        Arithmetic::Product => x.wrapping_mul(y),
        Arithmetic::Quotient => quotient(y, x),
        Arithmetic::Remainder => x.wrapping_rem(y),
        Arithmetic::And => x & y,
        Arithmetic::Or => x | y,
        Arithmetic::ExclusiveOr => x ^ y,
        Arithmetic::ShiftLeft => x.wrapping_shl(y.cast_unsigned()),
        Arithmetic::ShiftRight => x.wrapping_shr(y.cast_unsigned()),
        Arithmetic::ShiftRightUnsigned => {
            x.cast_unsigned()
                .wrapping_shr(y.cast_unsigned())
                .cast_signed()
        }
    }
}

/// Whether an int is computed with this second one: a divisor isn't zero.
fn takes(arithmetic: Arithmetic, y: i32) -> bool
    ensures { IsTrue result ↔ Takes arithmetic y }
{
    match arithmetic {
        Arithmetic::Quotient | Arithmetic::Remainder => y != 0,
        _ => true,
    }
}

/// The int that is computed, of the second int and the first; none for a zero divisor.
pub fn computed(arithmetic: Arithmetic, y: i32, x: i32) -> Option<i32>
    ensures { (c : ℤ) → (result ≡ Some c) ↔ IsComputed arithmetic y x c }
{
    if takes(arithmetic, y) {
        Some(combined(arithmetic, y, x))
    } else {
        None
    }
}
