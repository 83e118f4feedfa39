//! Words put behind others.
ghost use Rattle.std.specs.Prelude.{◌≡◌, ◌++◌, ◌+◌, ◌*◌, ◌^◌, replicate, OnOk};

use base::NoMemory;

/// What stands in the upper half of a word counts so many times.
const UPPER: u32 = 65536;

/// A word of two halves.
pub fn halves(upper: u16, lower: u16) -> u32
    ensures { result ≡ upper * 2 ^ 16 + lower }
{
    u32::from(upper) * UPPER + u32::from(lower)
}

/// The units of a text, a word each, put behind other words.
pub fn add_units(words: &mut Vec<u32>, units: &[u16]) -> Result<(), NoMemory>
    ensures { OnOk result (words.new.items ≡ words.old.items ++ units.now) }
{
    for unit in units {
        words.push(u32::from(*unit))?;
    }
    Ok(())
}

/// So many zeros, put behind other words.
pub fn add_zeros(words: &mut Vec<u32>, many: usize) -> Result<(), NoMemory>
    ensures { OnOk result (words.new.items ≡ words.old.items ++ replicate many 0) }
{
    for _index in 0..many {
        words.push(0)?;
    }
    Ok(())
}
