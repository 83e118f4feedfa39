//! Class files from plans.
ghost use Rattle.std.specs.Prelude.{◌≡◌, ◌<◌, ◌≤◌, [], length, map, IfOk, OnOk, Err};
ghost use Rattle.class_making.specs.Plans.{class_index, superclass_index, class_in, items_of, class_of};

use crate::maker::{MOST_ENTRIES, PoolMaker};
use crate::members::{fields, methods};
use crate::mentions::mention_plan;
use crate::plan::ClassPlan;
use base::{Items, NoMemory};
use class_pool::{ClassFile, Units};
use std::alloc::Global;

/// Why no class file was made.
#[derive(Clone, Copy)]
pub enum MakeFault {
    /// Its pool would have more than 65,534 entries.
    Full,
    /// There was no memory.
    NoMemory,
}

impl From<NoMemory> for MakeFault {
    ghost use Rattle.std.specs.Prelude.{◌≡◌};
    ghost use Rattle.class_making.specs.declared.classes.MakeFault.TheVariants as faults;

    ghost from_gives = { λ _ fault. fault ≡ faults.NoMemory };

    fn from(_: NoMemory) -> Self {
        MakeFault::NoMemory
    }
}

fn superclass_index(maker: &PoolMaker, alloc: Global, name: &Option<Units>) -> Result<u16, NoMemory>
    ensures { IfOk result (λ i. i ≡ superclass_index maker.now name.now) }
{
    match name {
        Some(name) => maker.class_index(alloc, name),
        None => Ok(0),
    }
}

fn class_indexes(maker: &PoolMaker, alloc: Global, names: &[Units]) -> Result<Vec<u16>, NoMemory>
    ensures { IfOk result (λ indexes. indexes.items ≡ map (class_index maker.now) names.now) }
{
    let mut indexes = Vec::new(alloc);
    for name in names {
        indexes.push(maker.class_index(alloc, name)?)?;
    }
    Ok(indexes)
}

/// The class file over the items of the pool.
fn class_in(maker: &PoolMaker, alloc: Global, plan: &ClassPlan) -> Result<ClassFile, NoMemory>
    ensures { IfOk result (λ class. class ≡ class_in maker.now plan.now) }
{
    let this_class = maker.class_index(alloc, &plan.name)?;
    let super_class = superclass_index(maker, alloc, &plan.superclass)?;
    let interfaces = class_indexes(maker, alloc, plan.interfaces.as_slice())?;
    let fields = fields(maker, alloc, plan.fields.as_slice())?;
    let methods = methods(maker, alloc, plan.methods.as_slice())?;
    Ok(ClassFile {
        minor: 0,
        major: plan.major,
        pool: maker.pool(alloc)?,
        flags: plan.flags,
        this_class,
        super_class,
        interfaces: Items::new(interfaces),
        fields: Items::new(fields),
        methods: Items::new(methods),
        attributes: Items::new(Vec::new(alloc)),
    })
}

/// The same, with a pool of no entries.
#[tactic(auto, unfolding(crate::specs::Plans::items_of, crate::specs::Plans::class_of))]
fn make_with(maker: &mut PoolMaker, alloc: Global, plan: &ClassPlan) -> Result<ClassFile, MakeFault>
    requires { maker.old ≡ [] }
    ensures made { IfOk result (λ class. class ≡ class_of plan.now) }
    ensures full { result ≡ Err MakeFault.Full → 65534 < length (items_of plan.now) }
    ensures room { OnOk result (length (items_of plan.now) ≤ 65534) }
{
    mention_plan(maker, alloc, plan)?;
    if maker.len() > MOST_ENTRIES {
        return Err(MakeFault::Full);
    }
    Ok(class_in(maker, alloc, plan)?)
}

/// The class file that says what the plan says.
pub fn make(alloc: Global, plan: &ClassPlan) -> Result<ClassFile, MakeFault>
    ensures made { IfOk result (λ class. class ≡ class_of plan.now) }
    // The pool is full exactly where more than 65,534 items are mentioned.
    ensures full { result ≡ Err MakeFault.Full → 65534 < length (items_of plan.now) }
    ensures room { OnOk result (length (items_of plan.now) ≤ 65534) }
{
    let mut maker = PoolMaker::new(alloc);
    make_with(&mut maker, alloc, plan)
}
