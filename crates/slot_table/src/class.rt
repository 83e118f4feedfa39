//! The class of the executive.
ghost use Rattle.std.specs.Prelude.{◌≡◌, ◌≤◌, ◌/◌, ◌%◌, ◌^◌, ◌++◌, length, IfOk, OnOk};
ghost use Rattle.std.specs.List.{flat_map};
ghost use Rattle.class_making.specs.Plans.{items_of, class_of};
ghost use Rattle.class_rules.specs.Grammar.{IsClass};
ghost use Rattle.slot_table.specs.Executive.{front_bytes, back_bytes, frames_bytes, bytes_in, method_of, call_of, main_pieces};
ghost use Rattle.slot_table.specs.Executive.{main_code, main_method, executive_plan, executive_of};

use crate::laws::executive_is_a_class;
use crate::slot::Slot;
use crate::table::SlotTable;
use base::{Items, NoMemory};
use class_making::laws::items_are_few;
use class_making::parts::{class, text};
use class_making::{ClassPlan, CodePlan, Item, MakeFault, MethodPlan, Piece, copy_of};
use class_pool::ClassFile;
use std::alloc::Global;

/// The flags of the class: public, and ACC_SUPER.
const OPEN_CLASS: u16 = 0x0021;
/// The flags of main: public and static.
const PUBLIC_STATIC: u16 = 0x0009;

/// The first and the second byte of a number of two.
fn high(n: u16) -> u8
    ensures { result ≡ n / 2 ^ 8 % 2 ^ 8 }
{
    (n / 256) as u8
}

fn low(n: u16) -> u8
    ensures { result ≡ n % 2 ^ 8 }
{
    (n % 256) as u8
}

/// Bytes of code.
fn bytes_in(alloc: Global, bytes: &[u8]) -> Result<Vec<Piece>, NoMemory>
    ensures { IfOk result (λ pieces. pieces.items ≡ bytes_in bytes.now) }
{
    Ok(bytes.iter().map(|byte| Piece::Byte(*byte)).collect(alloc)?)
}

/// The code before the calls.
fn front(rounds: u16, slots: u16) -> [u8; 9]
    requires { slots ≤ 64 }
    ensures { result ≡ front_bytes rounds slots }
{
    let past = 9 + 3 * slots;
    [
        0x03,
        0x3C,
        0x1B,
        0x11,
        high(rounds),
        low(rounds),
        0xA2,
        high(past),
        low(past),
    ]
}

/// The code behind the calls.
fn back(slots: u16) -> [u8; 7]
    requires { slots ≤ 64 }
    ensures { result ≡ back_bytes slots }
{
    let around = u16::MAX - (9 + 3 * slots);
    [0x84, 0x01, 0x01, 0xA7, high(around), low(around), 0xB1]
}

/// The bytes of main's StackMapTable.
fn frames(alloc: Global, slots: u16) -> Result<Vec<u8>, NoMemory>
    requires { slots ≤ 64 }
    ensures { IfOk result (λ bytes. bytes.items ≡ frames_bytes slots) }
{
    let delta = 12 + 3 * slots;
    if delta < 64 {
        Ok(Vec::from_slice(alloc, &[0x00, 0x02, 0xFC, 0x00, 0x02, 0x01, delta as u8])?)
    } else {
        let bytes = [
            0x00,
            0x02,
            0xFC,
            0x00,
            0x02,
            0x01,
            0xFB,
            high(delta),
            low(delta),
        ];
        Ok(Vec::from_slice(alloc, &bytes)?)
    }
}

/// The method of a slot, named in code.
fn method_of(alloc: Global, slot: &Slot) -> Result<Item, NoMemory>
    ensures { IfOk result (λ item. item ≡ method_of slot.now) }
{
    let (class, method) = (copy_of(alloc, &slot.class)?, copy_of(alloc, &slot.method)?);
    Ok(Item::Method(class, method, text(alloc, "()V")?))
}

/// Puts the call of a slot last.
fn put_call(pieces: &mut Vec<Piece>, alloc: Global, slot: &Slot) -> Result<(), NoMemory>
    ensures { OnOk result (pieces.new.items ≡ pieces.old.items ++ call_of slot.now) }
{
    let method = method_of(alloc, slot)?;
    pieces.push(Piece::Byte(0xB8))?;
    pieces.push(Piece::Index(method))?;
    Ok(())
}

/// Puts the calls of the slots last, in order.
fn put_calls(pieces: &mut Vec<Piece>, alloc: Global, slots: &[Slot]) -> Result<(), NoMemory>
    ensures { OnOk result (pieces.new.items ≡ pieces.old.items ++ flat_map call_of slots.now) }
{
    for slot in slots {
        put_call(pieces, alloc, slot)?;
    }
    Ok(())
}

fn main_pieces(alloc: Global, slots: &[Slot], rounds: u16) -> Result<Vec<Piece>, NoMemory>
    requires { length slots.now ≤ 64 }
    ensures { IfOk result (λ pieces. pieces.items ≡ main_pieces slots.now rounds) }
{
    let count = slots.len() as u16;
    let mut pieces = bytes_in(alloc, &front(rounds, count))?;
    put_calls(&mut pieces, alloc, slots)?;
    pieces.append(&mut bytes_in(alloc, &back(count))?)?;
    Ok(pieces)
}

fn main_code(alloc: Global, slots: &[Slot], rounds: u16) -> Result<CodePlan, NoMemory>
    requires { length slots.now ≤ 64 }
    ensures { IfOk result (λ code. code ≡ main_code slots.now rounds) }
{
    let pieces = main_pieces(alloc, slots, rounds)?;
    let frames = frames(alloc, slots.len() as u16)?;
    Ok(CodePlan {
        max_stack: 2,
        max_locals: 2,
        pieces: Items::new(pieces),
        stack_map: Some(Items::new(frames)),
    })
}

fn main_method(alloc: Global, slots: &[Slot], rounds: u16) -> Result<MethodPlan, NoMemory>
    requires { length slots.now ≤ 64 }
    ensures { IfOk result (λ method. method ≡ main_method slots.now rounds) }
{
    let code = main_code(alloc, slots, rounds)?;
    let name = text(alloc, "main")?;
    Ok(MethodPlan {
        flags: PUBLIC_STATIC,
        name,
        descriptor: text(alloc, "([Ljava/lang/String;)V")?,
        code: Some(code),
    })
}

fn executive_plan(alloc: Global, slots: &[Slot], rounds: u16) -> Result<ClassPlan, NoMemory>
    requires { length slots.now ≤ 64 }
    ensures { IfOk result (λ plan. plan ≡ executive_plan slots.now rounds) }
{
    let main = main_method(alloc, slots, rounds)?;
    let methods = vec![in alloc; main]?;
    let object = text(alloc, "java/lang/Object")?;
    let mut plan = class(alloc, OPEN_CLASS, "Cyclic", Some(object), methods)?;
    plan.major = 50;
    Ok(plan)
}

/// The class file of a plan whose pool has room.
fn made(alloc: Global, plan: &ClassPlan) -> Result<ClassFile, NoMemory>
    requires { length (items_of plan.now) ≤ 65534 }
    ensures { IfOk result (λ class. class ≡ class_of plan.now) }
{
    match class_making::make(alloc, plan) {
        Ok(class) => Ok(class),
        Err(MakeFault::NoMemory) => Err(NoMemory),
        Err(MakeFault::Full) => unreachable!(),
    }
}

/// The class `Cyclic`, whose main calls the slots of the table in order, so many rounds.
pub fn executive(alloc: Global, table: &SlotTable, rounds: u32) -> Result<ClassFile, NoMemory>
    requires some { 1 ≤ rounds }
    requires few { rounds ≤ 32767 }
    ensures class { IfOk result (λ class. class ≡ executive_of table.now rounds) }
    ensures right { IfOk result IsClass }
{
    // The laws are for the proof.
    items_are_few();
    executive_is_a_class();
    let plan = executive_plan(alloc, table.slots(), rounds as u16)?;
    made(alloc, &plan)
}
