//! Texts of members, as bytes (JVM Specification SE 8, 4.4.7).
ghost use Rattle.std.specs.Prelude.{◌≡◌, IfOk};
ghost use Rattle.program_tables.specs.Numbers.{member_text};

use base::NoMemory;
use class_lookup::ClassFile;
use class_lookup::parts::{name_of, text_at};
use class_pool::Member;
use class_pool::utf8::put_text;
use std::alloc::Global;

/// The dot between a class's name and a member's.
const DOT: u8 = 46;

/// The name of a class, a dot, and the name and the descriptor of a member of it.
pub(crate) fn member_text(
    alloc: Global,
    class: &ClassFile,
    member: &Member,
) -> Result<Vec<u8>, NoMemory>
    ensures { IfOk result (λ text. text.items ≡ member_text class.now member.now) }
{
    let mut text = Vec::new(alloc);
    put_text(&mut text, name_of(class))?;
    text.push(DOT)?;
    put_text(&mut text, text_at(&class.pool, member.name))?;
    put_text(&mut text, text_at(&class.pool, member.descriptor))?;
    Ok(text)
}
