//! What a plan names in place of an index of the pool.

ghost use Rattle.std.specs.Prelude.{◌≡◌, IfOk};

use base::NoMemory;
use class_pool::Units;
use std::alloc::Global;

/// What a pool has an entry for.
#[derive(PartialEq, Eq, Hash, Drop)]
pub enum Item {
    /// A text.
    Text(Units),
    /// The 32 bits of an `int`.
    Integer(u32),
    /// A class, by its name.
    Class(Units),
    /// A string, by its text.
    Str(Units),
    /// A name and a descriptor.
    NameAndType(Units, Units),
    /// A field of a class, by its name and descriptor.
    Field(Units, Units, Units),
    /// A method of a class.
    Method(Units, Units, Units),
    /// A method of an interface.
    InterfaceMethod(Units, Units, Units),
}

/// The same text once more.
pub fn copy_of(alloc: Global, text: &Units) -> Result<Units, NoMemory>
    ensures { IfOk result (λ copy. copy ≡ text.now) }
{
    Ok(Units::new(Vec::from_slice(alloc, text.as_slice())?))
}

/// The same three texts once more.
fn copies_of(
    alloc: Global,
    first: &Units,
    second: &Units,
    third: &Units,
) -> Result<(Units, Units, Units), NoMemory>
    ensures { IfOk result (λ copies. copies ≡ (first.now, second.now, third.now)) }
{
    let (first, second) = (copy_of(alloc, first)?, copy_of(alloc, second)?);
    Ok((first, second, copy_of(alloc, third)?))
}

impl Item {
    /// The same item once more.
    pub(crate) fn copied(&self, alloc: Global) -> Result<Item, NoMemory>
        ensures { IfOk result (λ copy. copy ≡ self.now) }
    {
        match self {
            Item::Text(text) => Ok(Item::Text(copy_of(alloc, text)?)),
            Item::Integer(bits) => Ok(Item::Integer(*bits)),
            Item::Class(name) => Ok(Item::Class(copy_of(alloc, name)?)),
            Item::Str(text) => Ok(Item::Str(copy_of(alloc, text)?)),
            Item::NameAndType(name, descriptor) => {
                let name = copy_of(alloc, name)?;
                Ok(Item::NameAndType(name, copy_of(alloc, descriptor)?))
            }
            Item::Field(owner, name, descriptor) => {
                let (owner, name, descriptor) = copies_of(alloc, owner, name, descriptor)?;
                Ok(Item::Field(owner, name, descriptor))
            }
            Item::Method(owner, name, descriptor) => {
                let (owner, name, descriptor) = copies_of(alloc, owner, name, descriptor)?;
                Ok(Item::Method(owner, name, descriptor))
            }
            Item::InterfaceMethod(owner, name, descriptor) => {
                let (owner, name, descriptor) = copies_of(alloc, owner, name, descriptor)?;
                Ok(Item::InterfaceMethod(owner, name, descriptor))
            }
        }
    }
}
