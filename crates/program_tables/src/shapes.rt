//! What methods are apart from their code, and what fields hold (JVM Specification SE 8, 4.3, 4.5 and 4.6).
ghost use Rattle.std.specs.Prelude.{◌≡◌, ◌<◌, List, length, map, Some, option_map, slice_get, IfOk};
ghost use Rattle.class_pool.specs.declared.class.ClassFile.{ClassFile};
ghost use Rattle.program_tables.specs.Meanings.{declared_seen, types_seen, field_types_in, HasShape, AreShapes};
ghost use Rattle.program_tables.specs.Numbers.{methods_by_number};
ghost use Rattle.program_tables.specs.Resolved.{declared_at, method_in};

use crate::laws::{members_are_there, methods_stand_by_number};
use crate::members::Places;
use crate::operand::{Declared, MethodShape};
use crate::texts::TextTypes;
use base::{Items, NoMemory};
use class_lookup::parts::{has_flags, text_at};
use class_lookup::{ClassFile, Place};
use class_pool::Member;
use class_rules::flags::ACC_STATIC;
use descriptors::names::is_instance_initializer;
use std::alloc::Global;

/// What a method of a class is apart from its code.
fn shape_of(
    alloc: Global,
    texts: &TextTypes<'_>,
    owner: u32,
    class: &ClassFile,
    method: &Member,
) -> Result<MethodShape, NoMemory>
    requires owner { owner < length texts.now }
    requires class { slice_get texts.now owner ≡ Some class.now }
    ensures { IfOk result (λ shape. HasShape shape (method_in texts.now owner class.now method.now)) }
{
    let descriptor = texts.classes().symbol(owner, method.descriptor);
    let parameters = Vec::from_slice(alloc, texts.parameters(descriptor))?;
    Ok(MethodShape {
        owner,
        has_this: !has_flags(method.flags, ACC_STATIC),
        is_init: is_instance_initializer(text_at(&class.pool, method.name)),
        parameters: Items::new(parameters),
        result: texts.result(descriptor),
    })
}

/// What the methods of all classes are, by number.
pub fn shapes_of(
    alloc: Global,
    texts: &TextTypes<'_>,
    methods: &Places,
) -> Result<Vec<MethodShape>, NoMemory>
    requires { methods.now ≡ methods_by_number texts.now }
    ensures { IfOk result (λ made. AreShapes texts.now made.items) }
{
    methods_stand_by_number();
    members_are_there();
    let classes = texts.classes();
    let mut made = Vec::new(alloc);
    for number in 0..methods.count() {
        let place = methods.at(number);
        let class = classes.class(place.class);
        match class.methods.as_slice().get(place.index) {
            Some(method) => made.push(shape_of(alloc, texts, place.class, class, method)?)?,
            None => unreachable!(),
        }
    }
    Ok(made)
}

/// What the fields of a class hold, in their order.
fn field_types_in(
    alloc: Global,
    texts: &TextTypes<'_>,
    number: u32,
    class: &ClassFile,
) -> Result<Items<Option<Declared>>, NoMemory>
    requires number { number < length texts.now }
    requires class { slice_get texts.now number ≡ Some class.now }
    ensures { IfOk result (λ made. types_seen made ≡ field_types_in texts.now class.now) }
{
    let mut made = Vec::new(alloc);
    for field in class.fields.as_slice() {
        made.push(texts.field(texts.classes().symbol(number, field.descriptor)))?;
    }
    Ok(Items::new(made))
}

/// What the fields of all classes hold, by class and place.
pub fn field_types_of(
    alloc: Global,
    texts: &TextTypes<'_>,
) -> Result<Vec<Items<Option<Declared>>>, NoMemory>
    ensures { IfOk result (λ made. map types_seen made.items ≡ map (field_types_in texts.now) texts.now) }
{
    let classes = texts.classes();
    let mut made = Vec::new(alloc);
    for number in 0..classes.class_count() {
        made.push(field_types_in(alloc, texts, number, classes.class(number))?)?;
    }
    Ok(made)
}

/// What a field holds, by its place; nothing where there is no such field.
pub fn field_type_at(made: &[Items<Option<Declared>>], place: Place) -> Option<Declared>
    ensures { (cs : List ClassFile) → map types_seen made.now ≡ map (field_types_in cs) cs → option_map declared_seen result ≡ declared_at cs place }
{
    match made.get(place.class as usize) {
        Some(class) => match class.as_slice().get(place.index) {
            Some(held) => *held,
            None => None,
        },
        None => None,
    }
}
