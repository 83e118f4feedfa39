//! Classes as plans: what a class file says, with items where it has indexes.

use crate::item::Item;
use base::Items;
use class_pool::Units;

/// A class or an interface.
#[derive(Drop)]
pub struct ClassPlan {
    /// The version of the class file, from 50 on.
    pub major: u16,
    pub flags: u16,
    pub name: Units,
    /// The superclass; only `java/lang/Object` has none.
    pub superclass: Option<Units>,
    /// The direct superinterfaces.
    pub interfaces: Items<Units>,
    pub fields: Items<FieldPlan>,
    pub methods: Items<MethodPlan>,
}

/// A field.
#[derive(Drop)]
pub struct FieldPlan {
    pub flags: u16,
    pub name: Units,
    pub descriptor: Units,
}

/// A method.
#[derive(Drop)]
pub struct MethodPlan {
    pub flags: u16,
    pub name: Units,
    pub descriptor: Units,
    pub code: Option<CodePlan>,
}

/// The code of a method.
#[derive(Drop)]
pub struct CodePlan {
    /// In words.
    pub max_stack: u16,
    /// In words.
    pub max_locals: u16,
    pub pieces: Items<Piece>,
    /// The bytes of the code's StackMapTable (JVM Specification SE 8, 4.7.4), if it has one.
    pub stack_map: Option<Items<u8>>,
}

/// A piece of code.
#[derive(Drop)]
pub enum Piece {
    Byte(u8),
    /// The index of an item, in two bytes.
    Index(Item),
}
