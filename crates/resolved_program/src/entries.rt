//! What the pool entries of each class mean, so that no instruction's names are looked up anew (JVM Specification SE 8, 4.4, 5.4.3).
ghost use Rattle.std.specs.Prelude.{◌≡◌, ℕ, ◌<◌, false, length, map, Some, slice_get, IfOk};
ghost use Rattle.std.specs.List.{AllByRecursion};
ghost use Rattle.class_lookup.specs.Lookup.{field_at, method_at};
ghost use Rattle.program_tables.specs.Entries.{meaning_of, meanings_in, all_meanings, meaning_seen, meanings_seen, field_found, method_found};
ghost use Rattle.program_tables.specs.Meanings.{operand_seen};
ghost use Rattle.program_tables.specs.Operands.{constant_operand, field_operand, method_operand, is_guarded_member};
ghost use Rattle.program_tables.specs.Tables.{HasFileLimits};
ghost use Rattle.resolved_program.specs.Entries.{AreTables};

use crate::instances::Instances;
use base::{Items, NoMemory};
use class_hierarchy::Hierarchy;
use class_lookup::parts::has_flags;
use class_lookup::{ClassFile, Place, method_at};
use class_pool::{Entry, Member};
use class_rules::flags::ACC_PROTECTED;
use program_tables::{
    Meaning, Members, Operand, StringNumbers, TextTypes, class_meaning, constant_operand, field_at,
    is_static_field, plain,
};
use std::alloc::Global;

/// The tables of a program by which its entries are resolved.
#[derive(Drop)]
pub(crate) struct Tables<'a> {
    pub(crate) classes: &'a Hierarchy,
    pub(crate) texts: &'a TextTypes<'a>,
    pub(crate) numbers: &'a StringNumbers,
    pub(crate) members: &'a Members,
    pub(crate) instances: &'a Instances,
}

/// The class through which an entry of a class names a field, and the field that is found from it.
pub(crate) fn field_found(
    classes: &Hierarchy,
    current: u32,
    class: &ClassFile,
    owner: u16,
    member: u16,
) -> Option<(u32, Place)>
    requires current { current < length classes.now }
    requires class { slice_get classes.now current ≡ Some class.now }
    ensures { result ≡ field_found classes.now class.now owner member }
{
    let listed = classes.classes();
    let (name, descriptor) = class.pool.name_and_type(member)?;
    let named = listed.class_named(current, owner)?;
    let name = listed.symbol(current, name);
    let descriptor = listed.symbol(current, descriptor);
    let place = classes.find_field_by(named, name, descriptor)?;
    Some((named, place))
}

/// The class through which an entry of a class names a method, and the method that is found from it.
pub(crate) fn method_found(
    classes: &Hierarchy,
    current: u32,
    class: &ClassFile,
    owner: u16,
    member: u16,
) -> Option<(u32, Place)>
    requires current { current < length classes.now }
    requires class { slice_get classes.now current ≡ Some class.now }
    ensures { result ≡ method_found classes.now class.now owner member }
{
    let listed = classes.classes();
    let (name, descriptor) = class.pool.name_and_type(member)?;
    let named = listed.class_named(current, owner)?;
    let name = listed.symbol(current, name);
    let descriptor = listed.symbol(current, descriptor);
    let place = classes.find_method_by(named, name, descriptor)?;
    Some((named, place))
}

/// What a field means.
fn field_operand(tables: &Tables<'_>, named: u32, place: Place) -> Operand
    requires { AreTables tables.now.classes.now tables.now }
    ensures { operand_seen result ≡ field_operand tables.now.classes.now named place }
{
    if is_static_field(tables.classes.classes(), place) {
        match tables.members.statics.number(place) {
            Some(field) => Operand::Static(field),
            None => Operand::Nothing,
        }
    } else {
        match tables.instances.number(tables.classes, place) {
            Some(index) => Operand::Field(named, place.class, index),
            None => Operand::Nothing,
        }
    }
}

/// What a method means, which is fixed or selected later.
fn method_operand(tables: &Tables<'_>, named: u32, taken: Option<Place>) -> Operand
    requires { AreTables tables.now.classes.now tables.now }
    ensures { operand_seen result ≡ method_operand tables.now.classes.now named taken }
{
    match taken {
        Some(place) => match tables.members.methods.number(place) {
            Some(number) => Operand::Method(named, number),
            None => Operand::Nothing,
        },
        None => Operand::Nothing,
    }
}

/// Whether a member of this place is protected, and of a superclass of the current class in another package.
fn is_guarded(classes: &Hierarchy, current: u32, place: Place, member: &Member) -> bool
    requires { current < length classes.now }
    ensures { result ≡ is_guarded_member classes.now current (Some place) (Some member.now) }
{
    let listed = classes.classes();
    has_flags(member.flags, ACC_PROTECTED)
        && classes.is_subclass(current, place.class)
        && !listed.are_in_one_package(current, place.class)
}

/// The same of the field of this place, if there is one.
fn is_guarded_field(classes: &Hierarchy, current: u32, place: Place) -> bool
    requires { current < length classes.now }
    ensures { result ≡ is_guarded_member classes.now current (Some place) (field_at classes.now place) }
{
    match field_at(classes.classes(), place) {
        Some(field) => is_guarded(classes, current, place, field),
        None => false,
    }
}

/// The same of the method of this place, if there is one.
fn is_guarded_method(classes: &Hierarchy, current: u32, place: Place) -> bool
    requires { current < length classes.now }
    ensures { result ≡ is_guarded_member classes.now current (Some place) (method_at classes.now place) }
{
    match method_at(classes.classes(), place) {
        Some(method) => is_guarded(classes, current, place, method),
        None => false,
    }
}

/// What a field means that an entry names.
fn field_meaning(
    tables: &Tables<'_>,
    current: u32,
    class: &ClassFile,
    owner: u16,
    member: u16,
) -> Meaning
    requires tables { AreTables tables.now.classes.now tables.now }
    requires current { current < length tables.now.classes.now }
    requires class { slice_get tables.now.classes.now current ≡ Some class.now }
    ensures { (index : ℕ) → meaning_seen result ≡ meaning_of tables.now.classes.now current class.now index (Some (Entry.Field owner member)) }
{
    match field_found(tables.classes, current, class, owner, member) {
        Some(found) => {
            let operand = field_operand(tables, found.0, found.1);
            Meaning {
                usual: operand,
                special: operand,
                guarded: is_guarded_field(tables.classes, current, found.1),
            }
        }
        None => plain(Operand::Nothing),
    }
}

/// What a method means that an entry names.
fn method_meaning(
    tables: &Tables<'_>,
    current: u32,
    class: &ClassFile,
    owner: u16,
    member: u16,
) -> Meaning
    requires tables { AreTables tables.now.classes.now tables.now }
    requires current { current < length tables.now.classes.now }
    requires class { slice_get tables.now.classes.now current ≡ Some class.now }
    ensures { (index : ℕ) → meaning_seen result ≡ meaning_of tables.now.classes.now current class.now index (Some (Entry.Method owner member)) }
{
    match method_found(tables.classes, current, class, owner, member) {
        Some(found) => {
            let special = tables.classes.special(current, found.0, found.1);
            Meaning {
                usual: method_operand(tables, found.0, Some(found.1)),
                special: method_operand(tables, found.0, special),
                guarded: is_guarded_method(tables.classes, current, found.1),
            }
        }
        None => plain(Operand::Nothing),
    }
}

/// What a constant of a class means.
fn constant_meaning(tables: &Tables<'_>, current: u32, class: &ClassFile, entry: &Entry) -> Meaning
    requires tables { AreTables tables.now.classes.now tables.now }
    requires current { current < length tables.now.classes.now }
    requires class { slice_get tables.now.classes.now current ≡ Some class.now }
    ensures usual { (meaning_seen result).usual ≡ constant_operand tables.now.classes.now class.now.pool entry.now }
    ensures special { (meaning_seen result).special ≡ constant_operand tables.now.classes.now class.now.pool entry.now }
    ensures guarded { (meaning_seen result).guarded ≡ false }
{
    // The contract alone speaks of it.
    let _ = class;
    let listed = tables.classes.classes();
    plain(constant_operand(listed, tables.numbers, current, entry))
}

/// What an entry of a class means.
fn entry_meaning(
    tables: &Tables<'_>,
    current: u32,
    class: &ClassFile,
    index: u16,
    entry: &Entry,
) -> Meaning
    requires tables { AreTables tables.now.classes.now tables.now }
    requires current { current < length tables.now.classes.now }
    requires class { slice_get tables.now.classes.now current ≡ Some class.now }
    ensures { meaning_seen result ≡ meaning_of tables.now.classes.now current class.now index (Some entry.now) }
{
    match entry {
        Entry::Class(_) => class_meaning(tables.texts, current, index),
        Entry::Field(owner, member) => field_meaning(tables, current, class, *owner, *member),
        Entry::Method(owner, member) | Entry::InterfaceMethod(owner, member) => {
            method_meaning(tables, current, class, *owner, *member)
        }
        Entry::Integer(_)
        | Entry::Long(_)
        | Entry::Text(_)
        | Entry::Utf8(_)
        | Entry::Float(_)
        | Entry::Double(_)
        | Entry::NameAndType(_, _)
        | Entry::Handle(_, _)
        | Entry::MethodType(_)
        | Entry::Dynamic(_, _)
        | Entry::Second => constant_meaning(tables, current, class, entry),
    }
}

/// What the entries of a class mean, in their order.
fn meanings_in(
    alloc: Global,
    tables: &Tables<'_>,
    current: u32,
    class: &ClassFile,
) -> Result<Items<Meaning>, NoMemory>
    requires tables { AreTables tables.now.classes.now tables.now }
    requires current { current < length tables.now.classes.now }
    requires class { slice_get tables.now.classes.now current ≡ Some class.now }
    requires pool { length class.now.pool < 65536 }
    ensures { IfOk result (λ made. meanings_seen made ≡ meanings_in tables.now.classes.now current class.now) }
{
    let mut made = Vec::new(alloc);
    for (place, entry) in class.pool.entries().iter().enumerate() {
        let index = (place + 1) as u16;
        made.push(entry_meaning(tables, current, class, index, entry))?;
    }
    Ok(Items::new(made))
}

/// What the entries of all classes mean.
pub(crate) fn all_meanings(
    alloc: Global,
    tables: &Tables<'_>,
) -> Result<Vec<Items<Meaning>>, NoMemory>
    requires tables { AreTables tables.now.classes.now tables.now }
    requires bounds { AllByRecursion HasFileLimits tables.now.classes.now }
    ensures { IfOk result (λ made. map meanings_seen made.items ≡ all_meanings tables.now.classes.now) }
{
    let listed = tables.classes.classes();
    let mut made = Vec::new(alloc);
    for current in 0..listed.class_count() {
        made.push(meanings_in(alloc, tables, current, listed.class(current))?)?;
    }
    Ok(made)
}
