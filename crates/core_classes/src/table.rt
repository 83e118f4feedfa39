//! The core classes, which stand before all others.
ghost use Rattle.std.specs.Prelude.{◌≡◌, ◌≤◌, ◌++◌, length, map, IfOk, OnOk};
ghost use Rattle.class_making.specs.Plans.{items_of, class_of};
ghost use Rattle.core_classes.specs.Core.{serializable_class, empty_init, object_plan, interface_plan, length_method, char_at_method, string_plan, plain_init};
ghost use Rattle.core_classes.specs.Core.{keeping_init, get_message_method, throwable_plan, handing_init, error_of, read_method, write_method, io_plan};
ghost use Rattle.core_classes.specs.Core.{first_plans, core_plans, core};

use base::{Items, NoMemory};
use class_making::laws::items_are_few;
use class_making::parts::{Room, class, field, field_item, method, method_item, text};
use class_making::{ClassPlan, FieldPlan, MakeFault, MethodPlan, Piece, make};
use class_pool::ClassFile;
use std::alloc::Global;

/// The flags of a class that may have subclasses, of an abstract and of a final one, and of an interface: public, and
/// ACC_SUPER where it is no interface.
const OPEN_CLASS: u16 = 0x0021;

const ABSTRACT_CLASS: u16 = 0x0421;

const FINAL_CLASS: u16 = 0x0031;

const INTERFACE: u16 = 0x0601;

/// The flags of members: public, public and static, private, private and final.
const PUBLIC: u16 = 0x0001;

const PUBLIC_STATIC: u16 = 0x0009;

const PRIVATE: u16 = 0x0002;

const PRIVATE_FINAL: u16 = 0x0012;

const OBJECT: &str = "java/lang/Object";

const SERIALIZABLE: &str = "java/io/Serializable";

const STRING: &str = "java/lang/String";

const THROWABLE: &str = "java/lang/Throwable";

const INIT: &str = "<init>";

const NO_ARGUMENTS: &str = "()V";

const TAKES_STRING: &str = "(Ljava/lang/String;)V";

/// The room of a method that works on one word, its receiver, and on two, its receiver and its argument.
const ONE: Room = Room {
    max_stack: 1,
    max_locals: 1,
};

const TWO: Room = Room {
    max_stack: 2,
    max_locals: 2,
};

/// An exception or an error, by its flags, its name and its superclass.
#[derive(Clone, Copy)]
pub(crate) struct ErrorClass {
    pub(crate) flags: u16,
    pub(crate) name: &'static str,
    pub(crate) superclass: &'static str,
}

macro_rules! errors {
    ($($flags:ident $name:literal $superclass:literal;)*) => {
        [$(ErrorClass {
            flags: $flags,
            name: $name,
            superclass: $superclass,
        },)*]
    };
}

/// The exceptions and errors, in order.
static ERRORS: [ErrorClass; 17] = errors! {
    OPEN_CLASS "java/lang/Exception" "java/lang/Throwable";
    OPEN_CLASS "java/lang/RuntimeException" "java/lang/Exception";
    OPEN_CLASS "java/lang/Error" "java/lang/Throwable";
    OPEN_CLASS "java/lang/ArithmeticException" "java/lang/RuntimeException";
    OPEN_CLASS "java/lang/ArrayStoreException" "java/lang/RuntimeException";
    OPEN_CLASS "java/lang/ClassCastException" "java/lang/RuntimeException";
    OPEN_CLASS "java/lang/IllegalArgumentException" "java/lang/RuntimeException";
    OPEN_CLASS "java/lang/IllegalStateException" "java/lang/RuntimeException";
    OPEN_CLASS "java/lang/IndexOutOfBoundsException" "java/lang/RuntimeException";
    OPEN_CLASS "java/lang/ArrayIndexOutOfBoundsException" "java/lang/IndexOutOfBoundsException";
    OPEN_CLASS "java/lang/NegativeArraySizeException" "java/lang/RuntimeException";
    OPEN_CLASS "java/lang/NullPointerException" "java/lang/RuntimeException";
    OPEN_CLASS "java/lang/LinkageError" "java/lang/Error";
    OPEN_CLASS "java/lang/IncompatibleClassChangeError" "java/lang/LinkageError";
    ABSTRACT_CLASS "java/lang/VirtualMachineError" "java/lang/Error";
    OPEN_CLASS "java/lang/OutOfMemoryError" "java/lang/VirtualMachineError";
    OPEN_CLASS "java/lang/StackOverflowError" "java/lang/VirtualMachineError";
};

/// The constructor of java/lang/Object.
#[tactic(auto, unfolding(crate::specs::Core::empty_init))]
fn empty_init(alloc: Global) -> Result<MethodPlan, NoMemory>
    ensures { IfOk result (λ method. method ≡ empty_init) }
{
    let room = Room {
        max_stack: 0,
        max_locals: 1,
    };
    let pieces = vec![in alloc; Piece::Byte(0xB1)]?;
    method(alloc, PUBLIC, INIT, NO_ARGUMENTS, room, pieces)
}

/// The constructor that calls that of the superclass.
#[tactic(auto, unfolding(crate::specs::Core::plain_init))]
fn plain_init(alloc: Global, superclass: &str) -> Result<MethodPlan, NoMemory>
    ensures { IfOk result (λ method. method ≡ plain_init superclass.now) }
{
    let init = method_item(alloc, text(alloc, superclass)?, INIT, NO_ARGUMENTS)?;
    let pieces = vec![in alloc;
        Piece::Byte(0x2A),
        Piece::Byte(0xB7),
        Piece::Index(init),
        Piece::Byte(0xB1),
    ]?;
    method(alloc, PUBLIC, INIT, NO_ARGUMENTS, ONE, pieces)
}

/// The constructor that hands its message on to the superclass.
#[tactic(auto, unfolding(crate::specs::Core::handing_init))]
fn handing_init(alloc: Global, superclass: &str) -> Result<MethodPlan, NoMemory>
    ensures { IfOk result (λ method. method ≡ handing_init superclass.now) }
{
    let init = method_item(alloc, text(alloc, superclass)?, INIT, TAKES_STRING)?;
    let pieces = vec![in alloc;
        Piece::Byte(0x2A),
        Piece::Byte(0x2B),
        Piece::Byte(0xB7),
        Piece::Index(init),
        Piece::Byte(0xB1),
    ]?;
    method(alloc, PUBLIC, INIT, TAKES_STRING, TWO, pieces)
}

/// The constructor of java/lang/Throwable that keeps its message.
#[tactic(auto, unfolding(crate::specs::Core::keeping_init))]
fn keeping_init(alloc: Global) -> Result<MethodPlan, NoMemory>
    ensures { IfOk result (λ method. method ≡ keeping_init) }
{
    let init = method_item(alloc, text(alloc, OBJECT)?, INIT, NO_ARGUMENTS)?;
    let message = field_item(alloc, THROWABLE, "message", "Ljava/lang/String;")?;
    let pieces = vec![in alloc;
        Piece::Byte(0x2A),
        Piece::Byte(0xB7),
        Piece::Index(init),
        Piece::Byte(0x2A),
        Piece::Byte(0x2B),
        Piece::Byte(0xB5),
        Piece::Index(message),
        Piece::Byte(0xB1),
    ]?;
    method(alloc, PUBLIC, INIT, TAKES_STRING, TWO, pieces)
}

#[tactic(auto, unfolding(crate::specs::Core::get_message_method))]
fn get_message(alloc: Global) -> Result<MethodPlan, NoMemory>
    ensures { IfOk result (λ method. method ≡ get_message_method) }
{
    let message = field_item(alloc, THROWABLE, "message", "Ljava/lang/String;")?;
    let pieces = vec![in alloc;
        Piece::Byte(0x2A),
        Piece::Byte(0xB4),
        Piece::Index(message),
        Piece::Byte(0xB0),
    ]?;
    method(
        alloc,
        PUBLIC,
        "getMessage",
        "()Ljava/lang/String;",
        ONE,
        pieces,
    )
}

#[tactic(auto, unfolding(crate::specs::Core::length_method))]
fn length(alloc: Global) -> Result<MethodPlan, NoMemory>
    ensures { IfOk result (λ method. method ≡ length_method) }
{
    let chars = field_item(alloc, STRING, "chars", "[C")?;
    let pieces = vec![in alloc;
        Piece::Byte(0x2A),
        Piece::Byte(0xB4),
        Piece::Index(chars),
        Piece::Byte(0xBE),
        Piece::Byte(0xAC),
    ]?;
    method(alloc, PUBLIC, "length", "()I", ONE, pieces)
}

#[tactic(auto, unfolding(crate::specs::Core::char_at_method))]
fn char_at(alloc: Global) -> Result<MethodPlan, NoMemory>
    ensures { IfOk result (λ method. method ≡ char_at_method) }
{
    let chars = field_item(alloc, STRING, "chars", "[C")?;
    let pieces = vec![in alloc;
        Piece::Byte(0x2A),
        Piece::Byte(0xB4),
        Piece::Index(chars),
        Piece::Byte(0x1B),
        Piece::Byte(0x34),
        Piece::Byte(0xAC),
    ]?;
    method(alloc, PUBLIC, "charAt", "(I)C", TWO, pieces)
}

#[tactic(auto, unfolding(crate::specs::Core::read_method))]
fn read(alloc: Global) -> Result<MethodPlan, NoMemory>
    ensures { IfOk result (λ method. method ≡ read_method) }
{
    let room = Room {
        max_stack: 1,
        max_locals: 0,
    };
    let pieces = vec![in alloc; Piece::Byte(0xFE), Piece::Byte(0xAC)]?;
    method(alloc, PUBLIC_STATIC, "read", "()I", room, pieces)
}

#[tactic(auto, unfolding(crate::specs::Core::write_method))]
fn write(alloc: Global) -> Result<MethodPlan, NoMemory>
    ensures { IfOk result (λ method. method ≡ write_method) }
{
    let pieces = vec![in alloc; Piece::Byte(0x1A), Piece::Byte(0xFF), Piece::Byte(0xB1)]?;
    method(alloc, PUBLIC_STATIC, "write", "(I)V", ONE, pieces)
}

/// A serializable class with a field.
fn serializable_class(
    alloc: Global,
    flags: u16,
    name: &str,
    field: FieldPlan,
    methods: Vec<MethodPlan>,
) -> Result<ClassPlan, NoMemory>
    ensures { IfOk result (λ plan. plan ≡ serializable_class flags name.now field methods.items) }
{
    let interface = text(alloc, SERIALIZABLE)?;
    Ok(ClassPlan {
        major: 52,
        flags,
        name: text(alloc, name)?,
        superclass: Some(text(alloc, OBJECT)?),
        interfaces: Items::new(vec![in alloc; interface]?),
        fields: Items::new(vec![in alloc; field]?),
        methods: Items::new(methods),
    })
}

#[tactic(auto, unfolding(crate::specs::Core::object_plan))]
fn object_plan(alloc: Global) -> Result<ClassPlan, NoMemory>
    ensures { IfOk result (λ plan. plan ≡ object_plan) }
{
    let init = empty_init(alloc)?;
    class(alloc, OPEN_CLASS, OBJECT, None, vec![in alloc; init]?)
}

#[tactic(auto, unfolding(crate::specs::Core::interface_plan))]
fn interface_plan(alloc: Global, name: &str) -> Result<ClassPlan, NoMemory>
    ensures { IfOk result (λ plan. plan ≡ interface_plan name.now) }
{
    let object = text(alloc, OBJECT)?;
    class(alloc, INTERFACE, name, Some(object), Vec::new(alloc))
}

#[tactic(auto, unfolding(crate::specs::Core::string_plan))]
fn string_plan(alloc: Global) -> Result<ClassPlan, NoMemory>
    ensures { IfOk result (λ plan. plan ≡ string_plan) }
{
    let mut methods = Vec::new(alloc);
    methods.push(length(alloc)?)?;
    methods.push(char_at(alloc)?)?;
    let chars = field(alloc, PRIVATE_FINAL, "chars", "[C")?;
    serializable_class(alloc, FINAL_CLASS, STRING, chars, methods)
}

#[tactic(auto, unfolding(crate::specs::Core::throwable_plan))]
fn throwable_plan(alloc: Global) -> Result<ClassPlan, NoMemory>
    ensures { IfOk result (λ plan. plan ≡ throwable_plan) }
{
    let message = field(alloc, PRIVATE, "message", "Ljava/lang/String;")?;
    let (plain, keeping) = (plain_init(alloc, OBJECT)?, keeping_init(alloc)?);
    let get_message = get_message(alloc)?;
    let methods = vec![in alloc; plain, keeping, get_message]?;
    serializable_class(alloc, OPEN_CLASS, THROWABLE, message, methods)
}

#[tactic(auto, unfolding(crate::specs::Core::error_plan))]
fn error_plan(alloc: Global, error: &ErrorClass) -> Result<ClassPlan, NoMemory>
    ensures { IfOk result (λ plan. plan ≡ error_of error.now) }
{
    let mut methods = Vec::new(alloc);
    methods.push(plain_init(alloc, error.superclass)?)?;
    methods.push(handing_init(alloc, error.superclass)?)?;
    let superclass = text(alloc, error.superclass)?;
    class(alloc, error.flags, error.name, Some(superclass), methods)
}

#[tactic(auto, unfolding(crate::specs::Core::io_plan))]
fn io_plan(alloc: Global) -> Result<ClassPlan, NoMemory>
    ensures { IfOk result (λ plan. plan ≡ io_plan) }
{
    let mut methods = Vec::new(alloc);
    methods.push(read(alloc)?)?;
    methods.push(write(alloc)?)?;
    let object = text(alloc, OBJECT)?;
    class(alloc, FINAL_CLASS, "jop/Io", Some(object), methods)
}

/// Adds the classes before the exceptions.
fn add_first_plans(plans: &mut Vec<ClassPlan>, alloc: Global) -> Result<(), NoMemory>
    ensures { OnOk result (plans.new.items ≡ plans.old.items ++ first_plans) }
{
    plans.push(object_plan(alloc)?)?;
    plans.push(interface_plan(alloc, SERIALIZABLE)?)?;
    plans.push(interface_plan(alloc, "java/lang/Cloneable")?)?;
    plans.push(string_plan(alloc)?)?;
    plans.push(throwable_plan(alloc)?)?;
    Ok(())
}

/// The classes of a table.
fn plans_of(alloc: Global, errors: &[ErrorClass]) -> Result<Vec<ClassPlan>, NoMemory>
    ensures { IfOk result (λ plans. plans.items ≡ map error_of errors.now) }
{
    let mut plans = Vec::new(alloc);
    for error in errors {
        plans.push(error_plan(alloc, error)?)?;
    }
    Ok(plans)
}

/// Adds the plans of the core classes.
fn add_core_plans(plans: &mut Vec<ClassPlan>, alloc: Global) -> Result<(), NoMemory>
    ensures { OnOk result (plans.new.items ≡ plans.old.items ++ core_plans) }
{
    add_first_plans(plans, alloc)?;
    plans.append(&mut plans_of(alloc, &ERRORS)?)?;
    plans.push(io_plan(alloc)?)?;
    Ok(())
}

fn core_plans(alloc: Global) -> Result<Vec<ClassPlan>, NoMemory>
    ensures { IfOk result (λ plans. plans.items ≡ core_plans) }
{
    let mut plans = Vec::new(alloc);
    match add_core_plans(&mut plans, alloc) {
        Ok(()) => Ok(plans),
        Err(NoMemory) => {
            // By a call: what the destructors of their parts do is proved there.
            drop(plans);
            Err(NoMemory)
        }
    }
}

/// The class file of a plan of which it is known that its pool has room.
pub(crate) fn made(alloc: Global, plan: &ClassPlan) -> Result<ClassFile, NoMemory>
    requires { length (items_of plan.now) ≤ 65534 }
    ensures { IfOk result (λ class. class ≡ class_of plan.now) }
{
    match make(alloc, plan) {
        Ok(class) => Ok(class),
        Err(MakeFault::NoMemory) => Err(NoMemory),
        Err(MakeFault::Full) => unreachable!(),
    }
}

/// The class files of the plans of the core classes.
fn classes_of(alloc: Global, plans: &[ClassPlan]) -> Result<Vec<ClassFile>, NoMemory>
    requires { plans.now ≡ core_plans }
    ensures { IfOk result (λ classes. classes.items ≡ map class_of plans.now) }
{
    items_are_few();
    let mut classes = Vec::new(alloc);
    for plan in plans {
        classes.push(made(alloc, plan)?)?;
    }
    Ok(classes)
}

/// The core classes, in order: `java/lang/Object`, the interfaces of arrays, `java/lang/String`, `java/lang/Throwable`
/// and the exceptions and errors that a program may raise, and `jop/Io`.
#[tactic(auto, unfolding(crate::specs::Core::core))]
pub fn core_classes(alloc: Global) -> Result<Vec<ClassFile>, NoMemory>
    ensures { IfOk result (λ classes. classes.items ≡ core) }
{
    let plans = core_plans(alloc)?;
    let classes = classes_of(alloc, &plans);
    // By a call: what the destructors of their parts do is proved there.
    drop(plans);
    classes
}
