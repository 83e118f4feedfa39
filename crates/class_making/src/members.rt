//! Fields, methods and code of a plan, where the pool has all that the plan mentions.
ghost use Rattle.std.specs.Prelude.{◌≡◌, ◌++◌, map, IfOk, OnOk};
ghost use Rattle.std.specs.List.{flat_map};
ghost use Rattle.class_making.specs.Making.{index_of};
ghost use Rattle.class_making.specs.Plans.{piece_bytes, stack_map_in, code_in, code_attributes, field_in, method_in};

use crate::item::Item;
use crate::maker::PoolMaker;
use crate::parts::text;
use crate::plan::{CodePlan, FieldPlan, MethodPlan, Piece};
use base::{Items, NoMemory};
use byteorder::{BigEndian, ByteOrder};
use class_pool::{Attribute, Body, Code, Member};
use std::alloc::Global;

fn put_piece(maker: &PoolMaker, out: &mut Vec<u8>, piece: &Piece) -> Result<(), NoMemory>
    ensures { OnOk result (out.new.items ≡ out.old.items ++ piece_bytes maker.now piece.now) }
{
    match piece {
        Piece::Byte(byte) => out.push(*byte)?,
        Piece::Index(item) => {
            let mut bytes = [0; 2];
            BigEndian::write_u16(&mut bytes, maker.index_of(item));
            out.extend_from_slice(&bytes)?;
        }
    }
    Ok(())
}

fn bytes_of(maker: &PoolMaker, alloc: Global, pieces: &[Piece]) -> Result<Vec<u8>, NoMemory>
    ensures { IfOk result (λ bytes. bytes.items ≡ flat_map (piece_bytes maker.now) pieces.now) }
{
    let mut bytes = Vec::new(alloc);
    for piece in pieces {
        put_piece(maker, &mut bytes, piece)?;
    }
    Ok(bytes)
}

/// The index of an ASCII text.
fn ascii_index(maker: &PoolMaker, alloc: Global, ascii: &str) -> Result<u16, NoMemory>
    ensures { IfOk result (λ i. i ≡ index_of maker.now (Item.Text ascii.now)) }
{
    maker.text_index(alloc, &text(alloc, ascii)?)
}

/// The attributes of code: its StackMapTable, if it has one.
fn stack_map(
    maker: &PoolMaker,
    alloc: Global,
    plan: &Option<Items<u8>>,
) -> Result<Items<(u16, Items<u8>)>, NoMemory>
    ensures { IfOk result (λ attributes. attributes ≡ stack_map_in maker.now plan.now) }
{
    match plan {
        None => Ok(Items::new(Vec::new(alloc))),
        Some(bytes) => {
            let name = ascii_index(maker, alloc, "StackMapTable")?;
            let bytes = Items::new(Vec::from_slice(alloc, bytes.as_slice())?);
            Ok(Items::new(vec![in alloc; (name, bytes)]?))
        }
    }
}

fn code(maker: &PoolMaker, alloc: Global, plan: &CodePlan) -> Result<Code, NoMemory>
    ensures { IfOk result (λ code. code ≡ code_in maker.now plan.now) }
{
    let bytes = bytes_of(maker, alloc, plan.pieces.as_slice())?;
    let attributes = stack_map(maker, alloc, &plan.stack_map)?;
    Ok(Code {
        max_stack: plan.max_stack,
        max_locals: plan.max_locals,
        code: Items::new(bytes),
        handlers: Items::new(Vec::new(alloc)),
        attributes,
    })
}

fn code_attributes(
    maker: &PoolMaker,
    alloc: Global,
    plan: &Option<CodePlan>,
) -> Result<Items<Attribute>, NoMemory>
    ensures { IfOk result (λ attributes. attributes ≡ code_attributes maker.now plan.now) }
{
    let mut attributes = Vec::new(alloc);
    if let Some(plan) = plan {
        attributes.push(Attribute {
            name: ascii_index(maker, alloc, "Code")?,
            body: Body::Code(code(maker, alloc, plan)?),
        })?;
    }
    Ok(Items::new(attributes))
}

fn field(maker: &PoolMaker, alloc: Global, plan: &FieldPlan) -> Result<Member, NoMemory>
    ensures { IfOk result (λ field. field ≡ field_in maker.now plan.now) }
{
    Ok(Member {
        flags: plan.flags,
        name: maker.text_index(alloc, &plan.name)?,
        descriptor: maker.text_index(alloc, &plan.descriptor)?,
        attributes: Items::new(Vec::new(alloc)),
    })
}

/// The fields of these plans.
pub(crate) fn fields(
    maker: &PoolMaker,
    alloc: Global,
    plans: &[FieldPlan],
) -> Result<Vec<Member>, NoMemory>
    ensures { IfOk result (λ fields. fields.items ≡ map (field_in maker.now) plans.now) }
{
    let mut fields = Vec::new(alloc);
    for plan in plans {
        fields.push(field(maker, alloc, plan)?)?;
    }
    Ok(fields)
}

fn method(maker: &PoolMaker, alloc: Global, plan: &MethodPlan) -> Result<Member, NoMemory>
    ensures { IfOk result (λ method. method ≡ method_in maker.now plan.now) }
{
    Ok(Member {
        flags: plan.flags,
        name: maker.text_index(alloc, &plan.name)?,
        descriptor: maker.text_index(alloc, &plan.descriptor)?,
        attributes: code_attributes(maker, alloc, &plan.code)?,
    })
}

/// The methods of these plans.
pub(crate) fn methods(
    maker: &PoolMaker,
    alloc: Global,
    plans: &[MethodPlan],
) -> Result<Vec<Member>, NoMemory>
    ensures { IfOk result (λ methods. methods.items ≡ map (method_in maker.now) plans.now) }
{
    let mut methods = Vec::new(alloc);
    for plan in plans {
        methods.push(method(maker, alloc, plan)?)?;
    }
    Ok(methods)
}
