//! The line of a text of bounds that bounds a loop.
ghost use Rattle.std.specs.Prelude.{◌≡◌, ◌++◌, OnOk};
ghost use Rattle.answer_lines.specs.LoopLine.{loop_line};

use ascii_text::put_u64;
use base::NoMemory;

/// Appends the line that bounds the loop of a method whose header is at this place: `NAME PC loop<=N`.
pub fn put_loop_line(
    text: &mut Vec<u8>,
    name: &[u8],
    place: u32,
    bound: u32,
) -> Result<(), NoMemory>
    ensures { OnOk result (text.new.items ≡ text.old.items ++ loop_line name.now place bound) }
{
    text.extend_from_slice(name)?;
    text.push(b' ')?;
    put_u64(text, place as u64)?;
    text.extend_from_slice(b" loop<=")?;
    put_u64(text, bound as u64)?;
    Ok(text.push(b'\n')?)
}
