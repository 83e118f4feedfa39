//! Big-endian numbers at the front of bytes, each with the bytes behind it.
ghost use Rattle.std.specs.Prelude.{◌≡◌, IfErr};
ghost use Rattle.base.specs.declared.fault.FormatFault.TheVariants.{Bad};
ghost use Rattle.base.specs.Reading.{Gives};
ghost use Rattle.class_pool.specs.Reading.{number_in, byte_in};

use base::FormatFault;
use byteorder::{BigEndian, ByteOrder};

pub fn u8_at(bytes: &[u8]) -> Result<(u8, &[u8]), FormatFault>
    ensures read { Gives (λ x. (x.0, x.1.now)) result (byte_in bytes.now) }
    ensures bad { IfErr result (λ fault. fault ≡ Bad) }
{
    match bytes {
        [byte, rest @ ..] => Ok((*byte, rest)),
        [] => Err(FormatFault::Bad),
    }
}

pub fn u16_at(bytes: &[u8]) -> Result<(u16, &[u8]), FormatFault>
    ensures read { Gives (λ x. (x.0, x.1.now)) result (number_in 2 bytes.now) }
    ensures bad { IfErr result (λ fault. fault ≡ Bad) }
{
    if bytes.len() < 2 {
        return Err(FormatFault::Bad);
    }
    Ok((BigEndian::read_u16(bytes), &bytes[2..]))
}

pub fn u32_at(bytes: &[u8]) -> Result<(u32, &[u8]), FormatFault>
    ensures read { Gives (λ x. (x.0, x.1.now)) result (number_in 4 bytes.now) }
    ensures bad { IfErr result (λ fault. fault ≡ Bad) }
{
    if bytes.len() < 4 {
        return Err(FormatFault::Bad);
    }
    Ok((BigEndian::read_u32(bytes), &bytes[4..]))
}

pub fn u64_at(bytes: &[u8]) -> Result<(u64, &[u8]), FormatFault>
    ensures read { Gives (λ x. (x.0, x.1.now)) result (number_in 8 bytes.now) }
    ensures bad { IfErr result (λ fault. fault ≡ Bad) }
{
    if bytes.len() < 8 {
        return Err(FormatFault::Bad);
    }
    Ok((BigEndian::read_u64(bytes), &bytes[8..]))
}
