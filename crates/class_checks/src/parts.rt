//! Parts of a pool (JVM Specification SE 8, 4.4).
ghost use Rattle.std.specs.Prelude.{◌≡◌, option_map};
ghost use Rattle.std.specs.Option.{option_copied};
ghost use Rattle.class_pool.specs.Grammar.{entry_at, text_at};
ghost use Rattle.program_tables.specs.Instructions.{signature_in};

use class_pool::{Entry, Pool};

/// The entry of an index.
pub(crate) fn entry_at(pool: &Pool, index: u16) -> Option<&Entry>
    ensures { option_copied result ≡ entry_at pool.now index }
{
    let place = usize::from(index.checked_sub(1)?);
    pool.entries().get(place)
}

/// The index of the descriptor of a NameAndType entry (4.4.6).
pub(crate) fn descriptor_in(pool: &Pool, index: u16) -> Option<u16>
    ensures { option_map (text_at pool.now) result ≡ option_map (λ s. s.descriptor) (signature_in pool.now index) }
{
    let (_name, descriptor) = pool.name_and_type(index)?;
    Some(descriptor)
}
