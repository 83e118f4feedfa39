//! Names that are read.
ghost use Rattle.std.specs.Prelude.{◌≡◌, ◌+◌, ◌*◌, ◌%◌, IfOk};
ghost use Rattle.name_laws.specs.Written.{digit_value, unescaped, name_in};

use crate::writing::put_written;
use base::NoMemory;
use std::alloc::Global;

/// The value of a digit, where it is one.
fn digit_value(digit: u8) -> u32
    ensures { result ≡ digit_value digit }
{
    if digit < 58 {
        u32::from(digit).saturating_sub(48)
    } else {
        u32::from(digit) - 55
    }
}

/// The byte that stands as these two digits.
fn byte_of(high: u8, low: u8) -> u8
    ensures { result ≡ (digit_value high * 16 + digit_value low) % 256 }
{
    ((digit_value(high) * 16 + digit_value(low)) % 256) as u8
}

/// The name that a text was written of, if it was.
fn unescaped(alloc: Global, text: &[u8]) -> Result<Vec<u8>, NoMemory>
    ensures { IfOk result (λ name. name.items ≡ unescaped text.now) }
{
    let mut name = Vec::new(alloc);
    let mut left = text;
    while left.len() >= 4 {
        if left[0] == b'\\' {
            name.push(byte_of(left[2], left[3]))?;
            left = &left[4..];
        } else {
            name.push(left[0])?;
            left = &left[1..];
        }
    }
    name.extend_from_slice(left)?;
    Ok(name)
}

/// The name that is written so, or an empty one where none is.
pub fn read_name(alloc: Global, text: &[u8]) -> Result<Vec<u8>, NoMemory>
    ensures { IfOk result (λ name. name.items ≡ name_in text.now) }
{
    let name = unescaped(alloc, text)?;
    let mut again = Vec::new(alloc);
    put_written(&mut again, &name)?;
    if again.as_slice() != text {
        return Ok(Vec::new(alloc));
    }
    Ok(name)
}
