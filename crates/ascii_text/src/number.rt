//! Decimal numbers.

ghost use Rattle.std.specs.Prelude.{◌≡◌, ◌++◌, ◌<◌, ◌^◌, OnOk, OnErr, SomeIff, decimal};
ghost use Rattle.std.specs.Vec.{VecUnchanged};
ghost use Rattle.ascii_text.specs.Number.{IsDecimalNumber, value_of, HasOneSpelling};

use base::NoMemory;
use itoa::Buffer;

/// The value of a text that is a decimal number below 2^64: digits without a leading zero, `0` itself
/// excepted. For any other text it is `None`.
pub fn read_u64(text: &[u8]) -> Option<u64>
    ensures { SomeIff result (IsDecimalNumber text.now × (value_of text.now < 2 ^ 64)) (value_of text.now) }
{
    match text {
        [b'0', _, ..] | [b'+', ..] => None,
        _ => match std::str::from_utf8(text) {
            Ok(digits) => digits.parse().ok(),
            Err(_) => None,
        },
    }
}

/// Appends the digits of `n`, the one decimal number that has this value.
#[tactic(auto, using(crate::proofs::NumberLemmas::spelling))]
pub fn put_u64(out: &mut Vec<u8>, n: u64) -> Result<(), NoMemory>
    ensures written { OnOk result (out.new.items ≡ out.old.items ++ decimal n) }
    ensures spelling { HasOneSpelling n }
    ensures err { OnErr result (VecUnchanged out.old out.new) }
{
    let mut digits = Buffer::new();
    out.extend_from_slice(digits.format(n).as_bytes())?;
    Ok(())
}
