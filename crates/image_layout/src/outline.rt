//! Where the parts of a program's image lie, before its words are written.
ghost use Rattle.std.specs.Prelude.{◌≡◌, ◌+◌, length, map, IfOk};
ghost use Rattle.image_builder.specs.Runs.{IsRun};
ghost use Rattle.image_facts.specs.Words.{declared_words};
ghost use Rattle.bytecode_model.specs.Sizes.{object_words};
ghost use Rattle.image_words.specs.Layout.{front_size, type_words, table_words, interface_words, pool_words, method_size, methods_size, classes_of};
ghost use Rattle.image_words.specs.Layout.{types_place, tables_place, interfaces_place, pools_place, methods_place};
ghost use Rattle.image_words.specs.Outline.{AreInstances, IsOutline};
ghost use Rattle.image_words.specs.Slots.{interface_methods};
ghost use Rattle.image_words.specs.Tables.{AreSlots};
ghost use Rattle.program_tables.specs.Resolved.{resolved};

use crate::sizes::{instances_of, method_sizes, static_sizes};
use base::NoMemory;
use class_lookup::Place;
use image_builder::{Run, add, count, run_from, times};
use image_words::{
    Outline, Slots, interface_methods, interface_sizes, object_sizes, pool_sizes, table_sizes,
    type_words,
};
use resolved_program::Program;
use std::alloc::Global;

/// The words of the header and of the two lists behind it.
const FRONT: u32 = 16 + 8 + 9;

/// The places of the static fields.
fn static_places(alloc: Global, program: &Program) -> Result<Run, NoMemory>
    ensures { IfOk result (IsRun front_size (map declared_words (resolved program.now).statics)) }
{
    let sizes = static_sizes(alloc, program)?;
    run_from(alloc, FRONT, &sizes)
}

/// The places of the method tables, which lie behind the types; each type has so many words.
fn table_places(
    alloc: Global,
    program: &Program,
    slots: &Slots,
    types: u32,
    words: u32,
) -> Result<Run, NoMemory>
    requires slots { AreSlots program.now slots.now }
    requires types { types ≡ types_place program.now }
    requires words { words ≡ type_words program.now }
    ensures { IfOk result (IsRun (tables_place program.now) (map (table_words program.now) (classes_of program.now))) }
{
    let start = add(types, times(program.type_count(), words)?)?;
    let sizes = table_sizes(alloc, program.hierarchy(), slots)?;
    run_from(alloc, start, &sizes)
}

/// The places of the tables of interface methods, the first of which lies behind that of zeros.
fn interface_table_places(
    alloc: Global,
    program: &Program,
    methods: &[Place],
    zeros: u32,
) -> Result<Run, NoMemory>
    requires methods { methods.now ≡ interface_methods program.now }
    requires zeros { zeros ≡ interfaces_place program.now }
    ensures { IfOk result (IsRun (interfaces_place program.now + length (interface_methods program.now))
        (map (interface_words program.now) (classes_of program.now))) }
{
    let many = count(methods.len())?;
    let start = add(zeros, many)?;
    let sizes = interface_sizes(alloc, program.hierarchy().classes(), many)?;
    run_from(alloc, start, &sizes)
}

/// The places of the pools.
fn pool_places(alloc: Global, program: &Program, start: u32) -> Result<Run, NoMemory>
    requires { start ≡ pools_place program.now }
    ensures { IfOk result (IsRun (pools_place program.now) (map pool_words program.now)) }
{
    let sizes = pool_sizes(alloc, program.hierarchy().classes())?;
    run_from(alloc, start, &sizes)
}

/// The places of the records of methods.
fn method_places(alloc: Global, program: &Program, start: u32) -> Result<Run, NoMemory>
    requires { start ≡ methods_place program.now }
    ensures { IfOk result (IsRun (methods_place program.now) (map method_size (resolved program.now).methods)) }
{
    let sizes = method_sizes(alloc, program)?;
    run_from(alloc, start, &sizes)
}

/// The places of the objects.
fn object_places(
    alloc: Global,
    program: &Program,
    instances: &[Run],
    start: u32,
) -> Result<Run, NoMemory>
    requires instances { AreInstances program.now instances.now }
    requires start { start ≡ methods_place program.now + methods_size program.now }
    ensures { IfOk result (IsRun (methods_place program.now + methods_size program.now)
        (map (object_words (resolved program.now)) (resolved program.now).first_objects)) }
{
    program.is_resolved();
    let sizes = object_sizes(alloc, program.strings(), instances)?;
    run_from(alloc, start, &sizes)
}

/// Where the parts in front of the pools lie, and the words of each type.
#[derive(Drop)]
struct TablePlaces {
    statics: Run,
    type_words: u32,
    tables: Run,
    interface_tables: Run,
}

/// The places of the parts in front of the pools.
fn places_of_tables(
    alloc: Global,
    program: &Program,
    methods: &[Place],
    slots: &Slots,
) -> Result<TablePlaces, NoMemory>
    requires methods { methods.now ≡ interface_methods program.now }
    requires slots { AreSlots program.now slots.now }
    ensures statics { IfOk result (λ made. IsRun front_size (map declared_words (resolved program.now).statics) made.statics) }
    ensures words { IfOk result (λ made. made.type_words ≡ type_words program.now) }
    ensures tables { IfOk result (λ made. IsRun (tables_place program.now) (map (table_words program.now) (classes_of program.now)) made.tables) }
    ensures interface_tables { IfOk result (λ made. IsRun (interfaces_place program.now + length (interface_methods program.now))
        (map (interface_words program.now) (classes_of program.now)) made.interface_tables) }
{
    let statics = static_places(alloc, program)?;
    let type_words = type_words(program.kinds());
    let tables = table_places(alloc, program, slots, statics.end, type_words)?;
    let interface_tables = interface_table_places(alloc, program, methods, tables.end)?;
    Ok(TablePlaces {
        statics,
        type_words,
        tables,
        interface_tables,
    })
}

/// Where the pools and what lies behind them lie.
#[derive(Drop)]
struct RecordPlaces {
    pools: Run,
    methods: Run,
    objects: Run,
}

/// The places of the pools and of what lies behind them.
fn places_of_records(
    alloc: Global,
    program: &Program,
    instances: &[Run],
    start: u32,
) -> Result<RecordPlaces, NoMemory>
    requires instances { AreInstances program.now instances.now }
    requires start { start ≡ pools_place program.now }
    ensures pools { IfOk result (λ made. IsRun (pools_place program.now) (map pool_words program.now) made.pools) }
    ensures methods { IfOk result (λ made. IsRun (methods_place program.now) (map method_size (resolved program.now).methods) made.methods) }
    ensures objects { IfOk result (λ made. IsRun (methods_place program.now + methods_size program.now)
        (map (object_words (resolved program.now)) (resolved program.now).first_objects) made.objects) }
{
    let pools = pool_places(alloc, program, start)?;
    let methods = method_places(alloc, program, pools.end)?;
    let objects = object_places(alloc, program, instances, methods.end)?;
    Ok(RecordPlaces {
        pools,
        methods,
        objects,
    })
}

/// Where the parts of an image lie.
#[derive(Drop)]
struct Places {
    tables: TablePlaces,
    records: RecordPlaces,
}

/// The places of the parts, which the methods of interfaces, the slots and the instance fields determine.
fn places_of(
    alloc: Global,
    program: &Program,
    methods: &[Place],
    slots: &Slots,
    instances: &[Run],
) -> Result<Places, NoMemory>
    requires methods { methods.now ≡ interface_methods program.now }
    requires slots { AreSlots program.now slots.now }
    requires instances { AreInstances program.now instances.now }
    ensures statics { IfOk result (λ made. IsRun front_size (map declared_words (resolved program.now).statics) made.tables.statics) }
    ensures words { IfOk result (λ made. made.tables.type_words ≡ type_words program.now) }
    ensures tables { IfOk result (λ made. IsRun (tables_place program.now) (map (table_words program.now) (classes_of program.now)) made.tables.tables) }
    ensures interface_tables { IfOk result (λ made. IsRun (interfaces_place program.now + length (interface_methods program.now))
        (map (interface_words program.now) (classes_of program.now)) made.tables.interface_tables) }
    ensures pools { IfOk result (λ made. IsRun (pools_place program.now) (map pool_words program.now) made.records.pools) }
    ensures methods { IfOk result (λ made. IsRun (methods_place program.now) (map method_size (resolved program.now).methods) made.records.methods) }
    ensures objects { IfOk result (λ made. IsRun (methods_place program.now + methods_size program.now)
        (map (object_words (resolved program.now)) (resolved program.now).first_objects) made.records.objects) }
{
    let tables = places_of_tables(alloc, program, methods, slots)?;
    let records = places_of_records(alloc, program, instances, tables.interface_tables.end)?;
    Ok(Places { tables, records })
}

/// The outline of a program's image.
pub(crate) fn outline_of(alloc: Global, program: &Program) -> Result<Outline, NoMemory>
    ensures { IfOk result (IsOutline program.now) }
{
    let hierarchy = program.hierarchy();
    let instances = instances_of(alloc, program)?;
    let numbered = interface_methods(alloc, hierarchy.classes())?;
    let slots = Slots::new(alloc, hierarchy, &numbered)?;
    let Places { tables, records } = places_of(alloc, program, &numbered, &slots, &instances)?;
    Ok(Outline {
        interface_methods: numbered,
        slots,
        instances,
        statics: tables.statics,
        type_words: tables.type_words,
        tables: tables.tables,
        interface_tables: tables.interface_tables,
        pools: records.pools,
        methods: records.methods,
        objects: records.objects,
    })
}
