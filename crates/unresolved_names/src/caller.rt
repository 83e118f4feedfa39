//! The class that names classes and members, and the class through which it names a member.
ghost use Rattle.std.specs.Prelude.{◌≡◌, ◌<◌, length, Some, slice_get};
ghost use Rattle.program_tables.specs.Operands.{class_named};
ghost use Rattle.unresolved_names.specs.Words.{nameable_entry};

use class_hierarchy::Hierarchy;
use class_pool::ClassFile;
use program_tables::TextTypes;

/// A class that names others, by its number among all classes, with the texts of these.
#[derive(Drop)]
pub(crate) struct Namer<'a> {
    pub(crate) texts: &'a TextTypes<'a>,
    pub(crate) number: u32,
    pub(crate) class: &'a ClassFile,
    ghost below: { number < length texts.now },
    ghost own: { slice_get texts.now number ≡ Some class.now },
}

/// A class that names members, which are looked up in the hierarchy of all classes.
#[derive(Drop)]
pub(crate) struct Caller<'a> {
    pub(crate) classes: &'a Hierarchy,
    pub(crate) namer: Namer<'a>,
    ghost same: { namer.texts.now ≡ classes.now },
}

/// A class through which a caller names a member: the Class entry of the caller that gives it, its number among all classes, and
/// whether the caller may name it.
#[derive(Drop)]
pub(crate) struct Through<'a> {
    pub(crate) caller: &'a Caller<'a>,
    pub(crate) index: u16,
    pub(crate) class: u32,
    pub(crate) may_be_named: bool,
    ghost below: { class < length caller.now.classes.now },
    ghost named: { class_named caller.now.classes.now caller.now.namer.class.now index ≡ Some class },
    ghost may: { may_be_named ≡ nameable_entry caller.now.classes.now caller.now.namer.number caller.now.namer.class.now index },
}
