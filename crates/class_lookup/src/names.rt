//! The classes that classes name: superclasses and superinterfaces, and the first class of each name.
ghost use Rattle.std.specs.Prelude.{◌≡◌, length, map, ◌<◌, ◌^◌, slice_get, IfOk};
ghost use Rattle.std.specs.List.{filter_map};
ghost use Rattle.class_pool.specs.declared.class.ClassFile.{ClassFile};
ghost use Rattle.class_lookup.specs.Parts.{class_text, superclass_name, superinterface_names};
ghost use Rattle.class_lookup.specs.Hierarchy.{find_class};
ghost use Rattle.class_lookup.specs.Tables.{AreSymbols, AreNamed, AreNames, ArePackages};

use crate::parts::{name_of, package_in};
use crate::symbols::{Symbols, class_symbol};
use crate::texts::Texts;
use base::{Items, NoMemory};
use class_pool::ClassFile;
use std::alloc::Global;

/// Tables of what classes name.
#[derive(Drop)]
pub(crate) struct Names {
    /// For each symbol the number of the first class of that name.
    pub(crate) classes: Vec<Option<u32>>,
    /// The number of each class's direct superclass.
    pub(crate) supers: Vec<Option<u32>>,
    /// The numbers of each class's direct superinterfaces, in order.
    pub(crate) interfaces: Vec<Items<u32>>,
    /// A number for each class, which the classes of a package share.
    pub(crate) packages: Vec<u32>,
}

/// For each symbol the number of the class of that name; of several classes of one name the first counts.
fn first_named(
    alloc: Global,
    classes: &[ClassFile],
    symbols: &Symbols,
) -> Result<Vec<Option<u32>>, NoMemory>
    requires few { length classes.now < 2 ^ 32 }
    requires symbols { AreSymbols classes.now symbols.now }
    ensures { IfOk result (λ named. AreNamed classes.now classes.now named.items) }
{
    let mut named = vec![in alloc; None; symbols.texts.count() as usize]?;
    for (i, class) in classes.iter().enumerate() {
        let name = class_symbol(classes, symbols, i, class.this_class) as usize;
        if named[name].is_none() {
            named[name] = Some(i as u32);
        }
    }
    Ok(named)
}

/// The number of the first class of the name that the Class entry of this index in a class's pool gives.
pub(crate) fn class_named(
    classes: &[ClassFile],
    symbols: &Symbols,
    named: &[Option<u32>],
    class: usize,
    index: u16,
) -> Option<u32>
    requires symbols { AreSymbols classes.now symbols.now }
    requires named { AreNamed classes.now classes.now named.now }
    requires class { class < length classes.now }
    ensures { (c : ClassFile) → slice_get classes.now class ≡ Some c → result ≡ find_class classes.now (class_text c.pool index) }
{
    named[class_symbol(classes, symbols, class, index) as usize]
}

/// The number of each class's direct superclass.
fn superclasses_of(
    alloc: Global,
    classes: &[ClassFile],
    symbols: &Symbols,
    named: &[Option<u32>],
) -> Result<Vec<Option<u32>>, NoMemory>
    requires symbols { AreSymbols classes.now symbols.now }
    requires named { AreNamed classes.now classes.now named.now }
    ensures { IfOk result (λ supers. supers.items ≡ map (λ k. find_class classes.now (superclass_name k)) classes.now) }
{
    let mut supers = Vec::new(alloc);
    for (i, class) in classes.iter().enumerate() {
        supers.push(class_named(classes, symbols, named, i, class.super_class))?;
    }
    Ok(supers)
}

/// The numbers of a class's direct superinterfaces, in order.
fn superinterfaces_of(
    alloc: Global,
    classes: &[ClassFile],
    symbols: &Symbols,
    named: &[Option<u32>],
    class: usize,
) -> Result<Vec<u32>, NoMemory>
    requires symbols { AreSymbols classes.now symbols.now }
    requires named { AreNamed classes.now classes.now named.now }
    requires class { class < length classes.now }
    ensures { IfOk result (λ found. (c : ClassFile) → slice_get classes.now class ≡ Some c
        → found.items ≡ filter_map (find_class classes.now) (superinterface_names c)) }
{
    let mut found = Vec::new(alloc);
    for index in classes[class].interfaces.as_slice() {
        if let Some(number) = class_named(classes, symbols, named, class, *index) {
            found.push(number)?;
        }
    }
    Ok(found)
}

/// The numbers of each class's direct superinterfaces, in order.
fn interfaces_of(
    alloc: Global,
    classes: &[ClassFile],
    symbols: &Symbols,
    named: &[Option<u32>],
) -> Result<Vec<Items<u32>>, NoMemory>
    requires symbols { AreSymbols classes.now symbols.now }
    requires named { AreNamed classes.now classes.now named.now }
    ensures { IfOk result (λ found. found.items ≡ map (λ k. filter_map (find_class classes.now) (superinterface_names k)) classes.now) }
{
    let mut found = Vec::new(alloc);
    for i in 0..classes.len() {
        found.push(Items::new(superinterfaces_of(alloc, classes, symbols, named, i)?))?;
    }
    Ok(found)
}

/// A number for each class, which the classes of a package share.
fn packages_of(alloc: Global, classes: &[ClassFile]) -> Result<Vec<u32>, NoMemory>
    ensures { IfOk result (λ packages. ArePackages classes.now packages.items) }
{
    let mut names = Texts::new(alloc)?;
    let mut packages = Vec::new(alloc);
    for class in classes {
        packages.push(names.insert(alloc, package_in(name_of(class)))?)?;
    }
    Ok(packages)
}

/// The tables of what these classes name.
pub(crate) fn names_of(
    alloc: Global,
    classes: &[ClassFile],
    symbols: &Symbols,
) -> Result<Names, NoMemory>
    requires few { length classes.now < 2 ^ 32 }
    requires symbols { AreSymbols classes.now symbols.now }
    ensures { IfOk result (λ names. AreNames classes.now names) }
{
    let named = first_named(alloc, classes, symbols)?;
    let supers = superclasses_of(alloc, classes, symbols, &named)?;
    let interfaces = interfaces_of(alloc, classes, symbols, &named)?;
    let packages = packages_of(alloc, classes)?;
    Ok(Names {
        classes: named,
        supers,
        interfaces,
        packages,
    })
}
