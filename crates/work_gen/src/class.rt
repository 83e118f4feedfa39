//! The class.
ghost use Rattle.std.specs.Prelude.{◌≡◌, ◌≤◌, [], ◌∷◌, map, length, string_bytes, IfOk};
ghost use Rattle.std.specs.List.{range_with_len};
ghost use Rattle.class_making.specs.Plans.{items_of, class_of};
ghost use Rattle.work_gen.specs.Work.{adder_name, bytes_in, call_of, loop_bytes, call_before, adder_pieces, adder_code, adder, methods, work_plan, work};

use crate::main_method::main_method;
use base::{Items, NoMemory};
use class_making::laws::items_are_few;
use class_making::parts::{class, method_item, text};
use class_making::{ClassPlan, CodePlan, MakeFault, MethodPlan, Piece};
use class_pool::ClassFile;
use std::alloc::Global;

/// The flags of the class: public, with ACC_SUPER.
const OPEN_CLASS: u16 = 0x0021;

/// The flags of its methods: public and static.
const PUBLIC_STATIC: u16 = 0x0009;

/// The bytes of an adder's StackMapTable: at place 2 local variable 1 is an int too, and so it is at place 18.
static ADDER_FRAMES: [u8; 7] = [0x00, 0x02, 0xFC, 0x00, 0x02, 0x01, 0x0F];

/// The name of an adder: m and its number.
fn adder_name(alloc: Global, k: u32) -> Result<String, NoMemory>
    ensures { IfOk result (λ name. string_bytes name ≡ adder_name k) }
{
    Ok(format!(in alloc; "m{k}")?)
}

/// Bytes of code.
pub(crate) fn bytes_in(alloc: Global, bytes: &[u8]) -> Result<Vec<Piece>, NoMemory>
    ensures { IfOk result (λ pieces. pieces.items ≡ bytes_in bytes.now) }
{
    Ok(bytes.iter().map(|byte| Piece::Byte(*byte)).collect(alloc)?)
}

/// The call of an adder.
pub(crate) fn call_of(alloc: Global, k: u32) -> Result<Vec<Piece>, NoMemory>
    ensures { IfOk result (λ pieces. pieces.items ≡ call_of k) }
{
    let name = adder_name(alloc, k)?;
    let item = method_item(alloc, text(alloc, "W")?, &name, "(I)I")?;
    Ok(vec![in alloc; Piece::Byte(0xB8), Piece::Index(item)]?)
}

/// The loop of an adder, which goes round so often.
fn loop_bytes(turns: u8) -> [u8; 19]
    ensures { result ≡ loop_bytes turns }
{
    [
        0x03, 0x3C, 0x1B, 0x10, turns, 0xA2, 0x00, 0x0D, 0x1A, 0x1B, 0x60, 0x3B, 0x84, 0x01, 0x01,
        0xA7, 0xFF, 0xF3, 0x1A,
    ]
}

/// The call of the adder before, except in the first of ten.
fn call_before(alloc: Global, k: u32) -> Result<Vec<Piece>, NoMemory>
    requires { 1 ≤ k }
    ensures { IfOk result (λ pieces. pieces.items ≡ call_before k) }
{
    if k % 10 == 1 {
        Ok(Vec::new(alloc))
    } else {
        call_of(alloc, k - 1)
    }
}

fn adder_pieces(alloc: Global, k: u32) -> Result<Vec<Piece>, NoMemory>
    requires { 1 ≤ k }
    ensures { IfOk result (λ pieces. pieces.items ≡ adder_pieces k) }
{
    let turns = (k % 8) as u8 + 1;
    let mut pieces = bytes_in(alloc, &loop_bytes(turns))?;
    pieces.append(&mut call_before(alloc, k)?)?;
    pieces.push(Piece::Byte(0xAC))?;
    Ok(pieces)
}

#[tactic(auto, unfolding(crate::specs::Work::adder_code))]
fn adder_code(alloc: Global, k: u32) -> Result<CodePlan, NoMemory>
    requires { 1 ≤ k }
    ensures { IfOk result (λ code. code ≡ adder_code k) }
{
    let pieces = adder_pieces(alloc, k)?;
    let frames = Vec::from_slice(alloc, &ADDER_FRAMES)?;
    Ok(CodePlan {
        max_stack: 2,
        max_locals: 2,
        pieces: Items::new(pieces),
        stack_map: Some(Items::new(frames)),
    })
}

#[tactic(auto, unfolding(crate::specs::Work::adder))]
fn adder(alloc: Global, k: u32) -> Result<MethodPlan, NoMemory>
    requires { 1 ≤ k }
    ensures { IfOk result (λ method. method ≡ adder k) }
{
    let name = adder_name(alloc, k)?;
    let code = adder_code(alloc, k)?;
    Ok(MethodPlan {
        flags: PUBLIC_STATIC,
        name: text(alloc, &name)?,
        descriptor: text(alloc, "(I)I")?,
        code: Some(code),
    })
}

/// The adders, in order.
fn adders(alloc: Global, n: u32) -> Result<Vec<MethodPlan>, NoMemory>
    requires { n ≤ 1000 }
    ensures { IfOk result (λ plans. plans.items ≡ map adder (range_with_len 1 n)) }
{
    let mut methods = Vec::new(alloc);
    for k in 1..n + 1 {
        methods.push(adder(alloc, k)?)?;
    }
    Ok(methods)
}

#[tactic(auto, unfolding(crate::specs::Work::methods))]
fn methods(alloc: Global, n: u32) -> Result<Vec<MethodPlan>, NoMemory>
    requires { n ≤ 1000 }
    ensures { IfOk result (λ plans. plans.items ≡ methods n) }
{
    let mut methods = adders(alloc, n)?;
    methods.push(main_method(alloc, n)?)?;
    Ok(methods)
}

#[tactic(auto, unfolding(crate::specs::Work::work_plan))]
fn work_plan(alloc: Global, n: u32) -> Result<ClassPlan, NoMemory>
    requires { n ≤ 1000 }
    ensures { IfOk result (λ plan. plan ≡ work_plan n) }
{
    let methods = methods(alloc, n)?;
    let object = text(alloc, "java/lang/Object")?;
    class(alloc, OPEN_CLASS, "W", Some(object), methods)
}

/// The class file of a plan whose pool has room.
fn made(alloc: Global, plan: &ClassPlan) -> Result<ClassFile, NoMemory>
    requires { length (items_of plan.now) ≤ 65534 }
    ensures { IfOk result (λ class. class ≡ class_of plan.now) }
{
    match class_making::make(alloc, plan) {
        Ok(class) => Ok(class),
        Err(MakeFault::NoMemory) => Err(NoMemory),
        Err(MakeFault::Full) => unreachable!(),
    }
}

/// The class `W` with this number of adders, alone in a list.
#[tactic(auto, unfolding(crate::specs::Work::work))]
pub fn make(alloc: Global, n: u32) -> Result<Vec<ClassFile>, NoMemory>
    requires some { 1 ≤ n }
    requires few { n ≤ 1000 }
    ensures { IfOk result (λ classes. classes.items ≡ work n ∷ []) }
{
    items_are_few();
    let plan = work_plan(alloc, n)?;
    let class = made(alloc, &plan)?;
    Ok(vec![in alloc; class]?)
}
