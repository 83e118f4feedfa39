//! The class that is run: it calls the initialization methods, and then main.
ghost use Rattle.std.specs.Prelude.{◌≡◌, ◌≤◌, length, IfOk};
ghost use Rattle.core_classes.specs.Core.{call_pieces, main_pieces, boot_pieces, boot_method, boot_plan, boot};

use crate::table::made;
use base::NoMemory;
use class_making::laws::items_are_few;
use class_making::parts::{Room, class, method, method_item, text};
use class_making::{ClassPlan, Item, MethodPlan, Piece, copy_of};
use class_pool::{ClassFile, Units};
use std::alloc::Global;

/// The flags of the class: final, with ACC_SUPER, and not public.
const FINAL: u16 = 0x0030;

/// The flags of its method: private and static.
const PRIVATE_STATIC: u16 = 0x000A;

/// The call of a class's initialization method.
#[tactic(auto, unfolding(crate::specs::Core::call_pieces))]
fn call_pieces(alloc: Global, name: &Units) -> Result<Vec<Piece>, NoMemory>
    ensures { IfOk result (λ pieces. pieces.items ≡ call_pieces name.now) }
{
    let initializer = method_item(alloc, copy_of(alloc, name)?, "<clinit>", "()V")?;
    Ok(vec![in alloc; Piece::Byte(0xB8), Piece::Index(initializer)]?)
}

/// The call of main with an array of no strings, and the return.
#[tactic(auto, unfolding(crate::specs::Core::main_pieces))]
fn main_pieces(alloc: Global, main: &Units) -> Result<Vec<Piece>, NoMemory>
    ensures { IfOk result (λ pieces. pieces.items ≡ main_pieces main.now) }
{
    let string = Item::Class(text(alloc, "java/lang/String")?);
    let owner = copy_of(alloc, main)?;
    let main = method_item(alloc, owner, "main", "([Ljava/lang/String;)V")?;
    Ok(vec![in alloc;
        Piece::Byte(0x03),
        Piece::Byte(0xBD),
        Piece::Index(string),
        Piece::Byte(0xB8),
        Piece::Index(main),
        Piece::Byte(0xB1),
    ]?)
}

#[tactic(auto, unfolding(crate::specs::Core::boot_pieces))]
fn boot_pieces(alloc: Global, calls: &[Units], main: &Units) -> Result<Vec<Piece>, NoMemory>
    ensures { IfOk result (λ pieces. pieces.items ≡ boot_pieces calls.now main.now) }
{
    let mut pieces = Vec::new(alloc);
    for name in calls {
        pieces.append(&mut call_pieces(alloc, name)?)?;
    }
    pieces.append(&mut main_pieces(alloc, main)?)?;
    Ok(pieces)
}

#[tactic(auto, unfolding(crate::specs::Core::boot_method))]
fn boot_method(alloc: Global, calls: &[Units], main: &Units) -> Result<MethodPlan, NoMemory>
    ensures { IfOk result (λ method. method ≡ boot_method calls.now main.now) }
{
    let pieces = boot_pieces(alloc, calls, main)?;
    let room = Room {
        max_stack: 1,
        max_locals: 0,
    };
    method(alloc, PRIVATE_STATIC, "boot", "()V", room, pieces)
}

#[tactic(auto, unfolding(crate::specs::Core::boot_plan))]
fn boot_plan(alloc: Global, calls: &[Units], main: &Units) -> Result<ClassPlan, NoMemory>
    ensures { IfOk result (λ plan. plan ≡ boot_plan calls.now main.now) }
{
    let method = boot_method(alloc, calls, main)?;
    let object = text(alloc, "java/lang/Object")?;
    class(
        alloc,
        FINAL,
        "jop/Boot",
        Some(object),
        vec![in alloc; method]?,
    )
}

/// The class `jop/Boot` of a program: its method calls the initialization methods of these classes in their order, and
/// then main of a class.
#[tactic(auto, unfolding(crate::specs::Core::boot))]
pub fn boot_class(alloc: Global, calls: &[Units], main: &Units) -> Result<ClassFile, NoMemory>
    // Each call takes six items at most, and a pool has room for 65,534.
    requires { length calls.now ≤ 10000 }
    ensures { IfOk result (λ class. class ≡ boot calls.now main.now) }
{
    items_are_few();
    let plan = boot_plan(alloc, calls, main)?;
    made(alloc, &plan)
}
