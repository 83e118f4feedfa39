//! What a plan mentions, in order.
ghost use Rattle.std.specs.Prelude.{◌≡◌, [], map, OnOk};
ghost use Rattle.std.specs.List.{flat_map};
ghost use Rattle.class_making.specs.Making.{mention, mention_each};
ghost use Rattle.class_making.specs.Plans.{piece_mentions, with_stack_map, code_mentions, field_mentions, method_mentions, supertype_mentions, plan_mentions};

use crate::item::Item;
use crate::maker::PoolMaker;
use crate::parts::text;
use crate::plan::{ClassPlan, CodePlan, FieldPlan, MethodPlan, Piece};
use base::{Items, NoMemory};
use class_pool::Units;
use std::alloc::Global;

#[tactic(auto, using(crate::proofs::MentionLemmas::each_append))]
fn mention_classes(maker: &mut PoolMaker, alloc: Global, names: &[Units]) -> Result<(), NoMemory>
    ensures { OnOk result (maker.new ≡ mention_each maker.old (map Item.Class names.now)) }
{
    for name in names {
        maker.mention_class(alloc, name)?;
    }
    Ok(())
}

fn mention_piece(maker: &mut PoolMaker, alloc: Global, piece: &Piece) -> Result<(), NoMemory>
    ensures { OnOk result (maker.new ≡ mention_each maker.old (piece_mentions piece.now)) }
{
    match piece {
        Piece::Byte(_) => Ok(()),
        Piece::Index(item) => maker.mention(alloc, item),
    }
}

#[tactic(auto, using(crate::proofs::MentionLemmas::each_append))]
fn mention_pieces(maker: &mut PoolMaker, alloc: Global, pieces: &[Piece]) -> Result<(), NoMemory>
    ensures { OnOk result (maker.new ≡ mention_each maker.old (flat_map piece_mentions pieces.now)) }
{
    for piece in pieces {
        mention_piece(maker, alloc, piece)?;
    }
    Ok(())
}

/// Mentions an ASCII text.
fn mention_ascii(maker: &mut PoolMaker, alloc: Global, ascii: &str) -> Result<(), NoMemory>
    ensures { OnOk result (maker.new ≡ mention maker.old (Item.Text ascii.now)) }
{
    maker.mention_text(alloc, &text(alloc, ascii)?)
}

/// Mentions the name of the table of frames, if there is one.
fn mention_stack_map(
    maker: &mut PoolMaker,
    alloc: Global,
    stack_map: &Option<Items<u8>>,
) -> Result<(), NoMemory>
    ensures { OnOk result (maker.new ≡ mention_each maker.old (with_stack_map [] stack_map.now)) }
{
    match stack_map {
        None => Ok(()),
        Some(_) => mention_ascii(maker, alloc, "StackMapTable"),
    }
}

#[tactic(auto, using(crate::proofs::MentionLemmas::each_with_stack_map))]
fn mention_code(
    maker: &mut PoolMaker,
    alloc: Global,
    code: &Option<CodePlan>,
) -> Result<(), NoMemory>
    ensures { OnOk result (maker.new ≡ mention_each maker.old (code_mentions code.now)) }
{
    match code {
        None => Ok(()),
        Some(code) => {
            mention_ascii(maker, alloc, "Code")?;
            mention_pieces(maker, alloc, code.pieces.as_slice())?;
            mention_stack_map(maker, alloc, &code.stack_map)
        }
    }
}

#[tactic(auto, using(crate::proofs::MentionLemmas::each_append))]
fn mention_fields(
    maker: &mut PoolMaker,
    alloc: Global,
    fields: &[FieldPlan],
) -> Result<(), NoMemory>
    ensures { OnOk result (maker.new ≡ mention_each maker.old (flat_map field_mentions fields.now)) }
{
    for field in fields {
        maker.mention_text(alloc, &field.name)?;
        maker.mention_text(alloc, &field.descriptor)?;
    }
    Ok(())
}

#[tactic(auto, using(crate::proofs::MentionLemmas::each_append))]
fn mention_method(maker: &mut PoolMaker, alloc: Global, method: &MethodPlan) -> Result<(), NoMemory>
    ensures { OnOk result (maker.new ≡ mention_each maker.old (method_mentions method.now)) }
{
    maker.mention_text(alloc, &method.name)?;
    maker.mention_text(alloc, &method.descriptor)?;
    mention_code(maker, alloc, &method.code)
}

#[tactic(auto, using(crate::proofs::MentionLemmas::each_append))]
fn mention_methods(
    maker: &mut PoolMaker,
    alloc: Global,
    methods: &[MethodPlan],
) -> Result<(), NoMemory>
    ensures { OnOk result (maker.new ≡ mention_each maker.old (flat_map method_mentions methods.now)) }
{
    for method in methods {
        mention_method(maker, alloc, method)?;
    }
    Ok(())
}

/// The superclass, if there is one, and the superinterfaces.
#[tactic(auto, using(crate::proofs::MentionLemmas::each_append))]
fn mention_supertypes(
    maker: &mut PoolMaker,
    alloc: Global,
    plan: &ClassPlan,
) -> Result<(), NoMemory>
    ensures { OnOk result (maker.new ≡ mention_each maker.old (supertype_mentions plan.now)) }
{
    if let Some(name) = &plan.superclass {
        maker.mention_class(alloc, name)?;
    }
    mention_classes(maker, alloc, plan.interfaces.as_slice())
}

/// Mentions all that a plan mentions.
#[tactic(auto, using(crate::proofs::MentionLemmas::each_append))]
pub(crate) fn mention_plan(
    maker: &mut PoolMaker,
    alloc: Global,
    plan: &ClassPlan,
) -> Result<(), NoMemory>
    ensures { OnOk result (maker.new ≡ mention_each maker.old (plan_mentions plan.now)) }
{
    maker.mention_class(alloc, &plan.name)?;
    mention_supertypes(maker, alloc, plan)?;
    mention_fields(maker, alloc, plan.fields.as_slice())?;
    mention_methods(maker, alloc, plan.methods.as_slice())
}
