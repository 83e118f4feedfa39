//! Texts as bytes (JVM Specification SE 8, 4.4.7).
ghost use Rattle.std.specs.Prelude.{◌≡◌, ◌++◌, IfOk, OnOk};
ghost use Rattle.class_pool.specs.Utf8.{unit_bytes, utf8_bytes};

use base::NoMemory;
use std::alloc::Global;

fn put_unit(out: &mut Vec<u8>, unit: u16) -> Result<(), NoMemory>
    ensures { OnOk result (out.new.items ≡ out.old.items ++ unit_bytes unit) }
{
    if 0 < unit && unit < 128 {
        out.push(unit as u8)?;
    } else if unit < 2048 {
        out.push((192 + unit / 64) as u8)?;
        out.push((128 + unit % 64) as u8)?;
    } else {
        out.push((224 + unit / 4096) as u8)?;
        out.push((128 + unit / 64 % 64) as u8)?;
        out.push((128 + unit % 64) as u8)?;
    }
    Ok(())
}

/// Puts the bytes of a text last. The only error is that there was no memory.
pub fn put_text(out: &mut Vec<u8>, units: &[u16]) -> Result<(), NoMemory>
    ensures { OnOk result (out.new.items ≡ out.old.items ++ utf8_bytes units.now) }
{
    for unit in units {
        put_unit(out, *unit)?;
    }
    Ok(())
}

/// The bytes of a text. The only error is that there was no memory.
pub fn text_bytes(alloc: Global, units: &[u16]) -> Result<Vec<u8>, NoMemory>
    ensures { IfOk result (λ bytes. bytes.items ≡ utf8_bytes units.now) }
{
    let mut bytes = Vec::new(alloc);
    put_text(&mut bytes, units)?;
    Ok(bytes)
}
