//! Parts of class files by name: flags, texts, members.

ghost use Rattle.std.specs.Prelude.{◌≡◌};
ghost use Rattle.class_lookup.specs.Parts.{class_text, name_of, package_in, signature_of};
ghost use Rattle.class_pool.specs.Grammar.{text_at, has};
ghost use Rattle.class_lookup.specs.Parts.{same_signature};

use class_pool::{ClassFile, Member, Pool};

/// Whether some of these flags are set.
pub fn has_flags(flags: u16, mask: u16) -> bool
    ensures { result ≡ has flags mask }
{
    flags & mask != 0
}

/// The units of a text, or nothing where the index is that of no text.
pub fn text_at(pool: &Pool, index: u16) -> &[u16]
    ensures { result.now ≡ text_at pool.now index }
{
    match pool.utf8(index) {
        Some(units) => units,
        None => &[],
    }
}

/// The name that a Class entry gives, or nothing where the index is that of no Class entry.
pub fn class_text(pool: &Pool, index: u16) -> &[u16]
    ensures { result.now ≡ class_text pool.now index }
{
    match pool.class_name(index) {
        Some(name) => text_at(pool, name),
        None => &[],
    }
}

/// The name of a class.
pub fn name_of(class: &ClassFile) -> &[u16]
    ensures { result.now ≡ name_of class.now }
{
    class_text(&class.pool, class.this_class)
}

/// The part of a class's name before its last `/`.
pub fn package_in(name: &[u16]) -> &[u16]
    ensures { result.now ≡ package_in name.now }
{
    let mut length = 0;
    for (i, unit) in name.iter().enumerate() {
        if *unit == 47 {
            length = i;
        }
    }
    &name[..length]
}

/// Whether a member of the class has this name and this descriptor.
pub fn has_signature(class: &ClassFile, member: &Member, name: &[u16], descriptor: &[u16]) -> bool
    ensures { result ≡ same_signature (signature_of class.now member.now) (record { name = name.now; descriptor = descriptor.now }) }
{
    text_at(&class.pool, member.name) == name
        && text_at(&class.pool, member.descriptor) == descriptor
}
