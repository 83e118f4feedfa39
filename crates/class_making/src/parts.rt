//! Parts of plans, by ASCII texts.
ghost use Rattle.std.specs.Prelude.{◌≡◌, IfOk};
ghost use Rattle.class_making.specs.Plans.{field_plan, method_plan, bare_class};

use crate::item::Item;
use crate::plan::{ClassPlan, CodePlan, FieldPlan, MethodPlan, Piece};
use base::{Items, NoMemory};
use class_pool::Units;
use std::alloc::Global;

/// The units of an ASCII text.
pub fn text(alloc: Global, ascii: &str) -> Result<Units, NoMemory>
    ensures { IfOk result (λ units. units ≡ ascii.now) }
{
    let units = ascii
        .as_bytes()
        .iter()
        .map(|byte| u16::from(*byte))
        .collect(alloc)?;
    Ok(Units::new(units))
}

/// A method of a class, named in code.
pub fn method_item(
    alloc: Global,
    owner: Units,
    name: &str,
    descriptor: &str,
) -> Result<Item, NoMemory>
    ensures { IfOk result (λ item. item ≡ Item.Method owner name.now descriptor.now) }
{
    let name = text(alloc, name)?;
    Ok(Item::Method(owner, name, text(alloc, descriptor)?))
}

/// A field of a class, named in code.
pub fn field_item(
    alloc: Global,
    owner: &str,
    name: &str,
    descriptor: &str,
) -> Result<Item, NoMemory>
    ensures { IfOk result (λ item. item ≡ Item.Field owner.now name.now descriptor.now) }
{
    let (owner, name) = (text(alloc, owner)?, text(alloc, name)?);
    Ok(Item::Field(owner, name, text(alloc, descriptor)?))
}

/// A field.
pub fn field(alloc: Global, flags: u16, name: &str, descriptor: &str) -> Result<FieldPlan, NoMemory>
    ensures { IfOk result (λ field. field ≡ field_plan flags name.now descriptor.now) }
{
    let (name, descriptor) = (text(alloc, name)?, text(alloc, descriptor)?);
    Ok(FieldPlan {
        flags,
        name,
        descriptor,
    })
}

/// The most words of a method's operand stack, and the words of its locals.
#[derive(Clone, Copy)]
pub struct Room {
    pub max_stack: u16,
    pub max_locals: u16,
}

/// A method with code, which has no StackMapTable.
pub fn method(
    alloc: Global,
    flags: u16,
    name: &str,
    descriptor: &str,
    room: Room,
    pieces: Vec<Piece>,
) -> Result<MethodPlan, NoMemory>
    ensures { IfOk result (λ method. method ≡ method_plan flags name.now descriptor.now room.max_stack room.max_locals pieces.items) }
{
    let (name, descriptor) = (text(alloc, name)?, text(alloc, descriptor)?);
    Ok(MethodPlan {
        flags,
        name,
        descriptor,
        code: Some(CodePlan {
            max_stack: room.max_stack,
            max_locals: room.max_locals,
            pieces: Items::new(pieces),
            stack_map: None,
        }),
    })
}

/// A class or an interface of version 52 with neither superinterfaces nor fields.
pub fn class(
    alloc: Global,
    flags: u16,
    name: &str,
    superclass: Option<Units>,
    methods: Vec<MethodPlan>,
) -> Result<ClassPlan, NoMemory>
    ensures { IfOk result (λ plan. plan ≡ bare_class flags name.now superclass methods.items) }
{
    Ok(ClassPlan {
        major: 52,
        flags,
        name: text(alloc, name)?,
        superclass,
        interfaces: Items::new(Vec::new(alloc)),
        fields: Items::new(Vec::new(alloc)),
        methods: Items::new(methods),
    })
}
