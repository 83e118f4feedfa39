//! The tables of a program, made from its classes. They are made in two steps, so that few of them are held where one fails.
ghost use Rattle.std.specs.Prelude.{◌≡◌, map, IfOk};
ghost use Rattle.std.specs.List.{AllByRecursion};
ghost use Rattle.program_tables.specs.Entries.{all_meanings, meanings_seen};
ghost use Rattle.program_tables.specs.Meanings.{field_types_in, types_seen, AreShapes};
ghost use Rattle.program_tables.specs.Numbers.{methods_by_number, fields_by_number, static_fields, types_of, strings_of};
ghost use Rattle.program_tables.specs.Tables.{kind_seen, HasFileLimits};
ghost use Rattle.resolved_program.specs.Entries.{AreProgramTables};
ghost use Rattle.resolved_program.specs.Instances.{own_lists, instance_counts};

use crate::entries::{Tables, all_meanings};
use crate::instances::{Instances, instances_of};
use base::{Items, NoMemory};
use class_hierarchy::Hierarchy;
use program_tables::{
    Declared, Meaning, Members, Mentioned, MethodShape, StringNumbers, Strings, TextTypes,
    field_types_of, members_of, mentioned_by, shapes_of,
};
use std::alloc::Global;

/// The members of classes by number, and what they hold, take and return.
#[derive(Drop)]
pub(crate) struct MemberTables {
    pub(crate) members: Members,
    pub(crate) shapes: Vec<MethodShape>,
    pub(crate) held: Vec<Items<Option<Declared>>>,
}

/// What the entries of classes mean, with the types, strings and instance fields by which they are resolved.
#[derive(Drop)]
pub(crate) struct EntryTables {
    pub(crate) mentioned: Mentioned,
    pub(crate) instances: Instances,
    pub(crate) entries: Vec<Items<Meaning>>,
}

/// The members of these classes.
fn member_tables(alloc: Global, texts: &TextTypes<'_>) -> Result<MemberTables, NoMemory>
    ensures methods { IfOk result (λ made. made.members.methods ≡ methods_by_number texts.now) }
    ensures fields { IfOk result (λ made. made.members.fields ≡ fields_by_number texts.now) }
    ensures statics { IfOk result (λ made. made.members.statics ≡ static_fields texts.now) }
    ensures shapes { IfOk result (λ made. AreShapes texts.now made.shapes.items) }
    ensures held { IfOk result (λ made. map types_seen made.held.items ≡ map (field_types_in texts.now) texts.now) }
{
    let members = members_of(alloc, texts.classes())?;
    let shapes = shapes_of(alloc, texts, &members.methods)?;
    let held = field_types_of(alloc, texts)?;
    Ok(MemberTables {
        members,
        shapes,
        held,
    })
}

/// What the entries of these classes mean.
fn entry_tables(
    alloc: Global,
    classes: &Hierarchy,
    texts: &TextTypes<'_>,
    members: &Members,
) -> Result<EntryTables, NoMemory>
    requires texts { texts.now ≡ classes.now }
    requires methods { members.now.methods ≡ methods_by_number classes.now }
    requires statics { members.now.statics ≡ static_fields classes.now }
    requires bounds { AllByRecursion HasFileLimits classes.now }
    ensures types { IfOk result (λ made. map kind_seen made.mentioned.types ≡ types_of classes.now) }
    ensures strings { IfOk result (λ made. made.mentioned.strings ≡ strings_of classes.now) }
    ensures own { IfOk result (λ made. made.instances.own.items ≡ own_lists classes.now) }
    ensures counts { IfOk result (λ made. made.instances.counts.items ≡ instance_counts classes.now) }
    ensures entries { IfOk result (λ made. map meanings_seen made.entries.items ≡ all_meanings classes.now) }
{
    let mentioned = mentioned_by(alloc, texts)?;
    let instances = instances_of(alloc, classes)?;
    let entries = entries_of(
        alloc,
        classes,
        texts,
        members,
        &mentioned.strings,
        &instances,
    )?;
    Ok(EntryTables {
        mentioned,
        instances,
        entries,
    })
}

/// The meanings of all entries.
fn entries_of(
    alloc: Global,
    classes: &Hierarchy,
    texts: &TextTypes<'_>,
    members: &Members,
    strings: &Strings,
    instances: &Instances,
) -> Result<Vec<Items<Meaning>>, NoMemory>
    requires texts { texts.now ≡ classes.now }
    requires methods { members.now.methods ≡ methods_by_number classes.now }
    requires statics { members.now.statics ≡ static_fields classes.now }
    requires strings { strings.now ≡ strings_of classes.now }
    requires own { instances.now.own.items ≡ own_lists classes.now }
    requires counts { instances.now.counts.items ≡ instance_counts classes.now }
    requires bounds { AllByRecursion HasFileLimits classes.now }
    ensures { IfOk result (λ made. map meanings_seen made.items ≡ all_meanings classes.now) }
{
    let numbers = StringNumbers::new(alloc, classes.classes(), strings)?;
    let tables = Tables {
        classes,
        texts,
        numbers: &numbers,
        members,
        instances,
    };
    all_meanings(alloc, &tables)
}

/// The tables of a program.
#[derive(Drop)]
pub(crate) struct ProgramTables {
    pub(crate) by_number: MemberTables,
    pub(crate) by_entry: EntryTables,
}

/// The tables of these classes, by what their texts mean.
fn tables_by(
    alloc: Global,
    classes: &Hierarchy,
    texts: &TextTypes<'_>,
) -> Result<ProgramTables, NoMemory>
    requires texts { texts.now ≡ classes.now }
    requires bounds { AllByRecursion HasFileLimits classes.now }
    ensures { IfOk result (AreProgramTables classes.now) }
{
    let by_number = member_tables(alloc, texts)?;
    let by_entry = entry_tables(alloc, classes, texts, &by_number.members)?;
    Ok(ProgramTables {
        by_number,
        by_entry,
    })
}

/// The tables of these classes.
pub(crate) fn tables_of(alloc: Global, classes: &Hierarchy) -> Result<ProgramTables, NoMemory>
    requires { AllByRecursion HasFileLimits classes.now }
    ensures { IfOk result (AreProgramTables classes.now) }
{
    match TextTypes::new(alloc, classes.classes()) {
        Ok(texts) => {
            let made = tables_by(alloc, classes, &texts);
            drop(texts);
            made
        }
        Err(fault) => Err(fault),
    }
}
